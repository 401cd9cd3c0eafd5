// The initials of a text, byte by byte.
ghost use Rattle.std.specs.Prelude.{◌≡◌, IfOk, IsUtf8};
ghost use Rattle.value_forms.specs.InitialBytes.{is_initial};
ghost use Rattle.value_forms.specs.Initials.{initials_of};

use link_base::{NoMemory, Text};
use std::alloc::Global;

fn is_first(starts: bool, follows: bool, byte: u8) -> bool
    ensures { result ≡ is_initial starts follows byte }
{
    byte != b' ' && (starts || (follows && byte >= 128 && byte <= 191))
}

/// The initials of a text in UTF-8: the first character of each of its words, joined.
#[tactic(auto, using(crate::proofs::DayLemmas::initials_bytes))]
pub fn initials_text(alloc: Global, text: &[u8]) -> Result<Text, NoMemory>
    requires { IsUtf8 text.now }
    ensures text { IfOk result (λ initials. initials ≡ initials_of text.now) }
{
    let mut initials = Vec::new(alloc);
    // Whether a word may start here, and whether a byte of its first character stands before.
    let mut starts = true;
    let mut follows = false;
    for byte in text {
        follows = is_first(starts, follows, *byte);
        starts = *byte == b' ';
        if !follows {
            continue;
        }
        initials.push(*byte)?;
    }
    Ok(Text::of(initials))
}
