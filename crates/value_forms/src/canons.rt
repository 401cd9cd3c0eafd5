// What values are compared and blocked by: canons, how two values are compared, and the canon of a value.
ghost use Rattle.std.specs.Prelude.{◌≡◌, option_map};
ghost use Rattle.link_base.specs.Standard.{value_seen, IsDay};
ghost use Rattle.value_forms.specs.CanonTexts.{canon_bytes};
ghost use Rattle.link_base.specs.declared.standard.Value.TheVariants.{Day, Word};
ghost use Rattle.value_forms.specs.Canons.{IsReadable, canon_by, compares_days as is_of_days, letters_of, with_letters};

use crate::days::day_text;
use crate::first::first_chars;
use link_base::ValueRef;
use phonetic_keys::{Nysiis, nysiis, soundex};

/// At which end of a word letters stand.
#[derive(Clone, Copy, PartialEq, Eq)]
pub enum End {
    /// The first letters.
    Front,
}

/// A canon of a value, which takes no memory: what values of a field are compared by, or the part of a key of a blocking pass
/// that a value makes.
#[derive(Clone, Copy, PartialEq, Eq)]
pub enum Canon {
    /// The whole value.
    Whole,
    /// The Soundex key.
    Soundex,
    /// The NYSIIS key.
    Nysiis,
    /// The characters at an end, 1 to 20 of them.
    Letters(End, u8),
    /// The year of a day.
    Year,
}

impl Canon {
    /// The number of its letters, where it has one.
    pub fn letters(self) -> Option<u8>
        ensures { result ≡ letters_of self }
    {
        match self {
            Canon::Letters(_, n) => Some(n),
            _ => None,
        }
    }

    /// The same canon of so many letters, where it has a number of letters.
    pub fn with_letters(self, n: u8) -> Canon
        ensures { result ≡ with_letters n self }
    {
        match self {
            Canon::Letters(end, _) => Canon::Letters(end, n),
            other => other,
        }
    }
}

/// How the two values of a field are compared.
#[derive(Clone, Copy)]
pub enum CompareKind {
    /// Equal canons agree.
    Same(Canon),
    /// Equal initials agree.
    Initials,
    /// Days at most so many days apart agree, at most 36,500.
    DaysWithin(u32),
    /// Days whose years differ by at most so many agree, at most 100.
    YearsWithin(u32),
}

/// The bytes of a canon that takes no memory.
#[derive(Drop)]
pub enum CanonText<'v> {
    /// A word, or a part of it.
    Slice(&'v [u8]),
    /// A Soundex key, or the digits of a year.
    Short([u8; 4]),
    /// A day as `YYYY-MM-DD`.
    Date([u8; 10]),
    /// A NYSIIS key.
    Letters(Nysiis),
}

/// The bytes, without a copy.
pub fn bytes_of<'t>(canon: &'t CanonText) -> &'t [u8]
    ensures { result.now ≡ canon_bytes canon.now }
{
    match canon {
        CanonText::Slice(text) => *text,
        CanonText::Short(bytes) => bytes,
        CanonText::Date(bytes) => bytes,
        CanonText::Letters(key) => key.bytes(),
    }
}

// The canon of a word.
fn word_canon(canon: Canon, text: &[u8]) -> Option<CanonText<'_>>
    requires { IsReadable canon (Word text.now) }
    ensures { option_map canon_bytes result ≡ canon_by canon (Word text.now) }
{
    match canon {
        Canon::Whole => Some(CanonText::Slice(text)),
        Canon::Soundex => Some(CanonText::Short(soundex(text)?)),
        Canon::Nysiis => Some(CanonText::Letters(nysiis(text)?)),
        Canon::Letters(End::Front, n) => Some(CanonText::Slice(first_chars(text, n))),
        Canon::Year => None,
    }
}

// The canon of a day.
#[tactic(auto, unfolding(crate::specs::Days::text_of_day))]
fn day_canon<'v>(canon: Canon, day: i32) -> Option<CanonText<'v>>
    requires { IsDay day }
    ensures { option_map canon_bytes result ≡ canon_by canon (Day day) }
{
    let text = day_text(day);
    match canon {
        Canon::Whole => Some(CanonText::Date(text)),
        Canon::Year => Some(CanonText::Short([text[0], text[1], text[2], text[3]])),
        _ => None,
    }
}

/// Whether a kind compares days as they are: no value has a canon for it.
pub fn compares_days(kind: CompareKind) -> bool
    ensures { result ≡ is_of_days kind }
{
    matches!(
        kind,
        CompareKind::DaysWithin(_) | CompareKind::YearsWithin(_)
    )
}

/// The canon of a value, `None` exactly where it has none.
pub fn canon_text<'v>(canon: Canon, value: &ValueRef<'v>) -> Option<CanonText<'v>>
    requires { IsReadable canon (value_seen value.now) }
    ensures { option_map canon_bytes result ≡ canon_by canon (value_seen value.now) }
{
    match *value {
        ValueRef::Absent => None,
        ValueRef::Word(text) => word_canon(canon, text),
        ValueRef::Day(day) => day_canon(canon, day),
    }
}
