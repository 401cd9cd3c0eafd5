// Texts of bytes, and want of memory.
ghost use Rattle.std.specs.Prelude.{◌≡◌, ◌≤◌, ◌++◌, ◌∷◌, [], List, ℕ, IfOk, OnErr, OnOk, decimal, length};
ghost use Rattle.std.specs.Cmp.{partial_equiv_from_equiv};
ghost use Rattle.std.specs.Cmp.Lexicographic.{nat_list_eq_equiv};
ghost use Rattle.link_texts.specs.declared.text.TheConstants.{MOST_SHORT};

use std::alloc::{AllocError, AllocFailed, Global};
use std::marker::Model;
use thiserror::Error;

/// Want of memory, the one free answer: no clause says when it comes.
#[derive(Clone, Copy, Debug, PartialEq, Eq, Error)]
#[error("want of memory")]
pub struct NoMemory;

impl From<AllocError> for NoMemory {
    fn from(_: AllocError) -> NoMemory {
        NoMemory
    }
}

impl<T: Drop> From<AllocFailed<T>> for NoMemory {
    fn from(_: AllocFailed<T>) -> NoMemory {
        NoMemory
    }
}

// The most bytes of a text that takes no memory of its own.
const MOST_SHORT: usize = 22;

// The bytes of a short text, behind each other.
#[derive(Drop)]
struct Short {
    bytes: [u8; MOST_SHORT],
    count: u8,
}

impl Model for Short {
    ghost use Rattle.std.specs.Prelude.{◌≤◌, List, ℕ, take};
    ghost use Rattle.link_texts.specs.declared.text.TheConstants.{MOST_SHORT};

    ghost Value = { List ℕ };

    ghost view = { λ s. take s.count s.bytes };

    ghost invariant = { λ s. s.count ≤ MOST_SHORT };
}

impl Short {
    // A copy of these bytes.
    fn new(text: &[u8]) -> Short
        requires { length text.now ≤ MOST_SHORT }
        ensures { result ≡ text.now }
    {
        let mut bytes = [0; MOST_SHORT];
        bytes[..text.len()].copy_from_slice(text);
        Short {
            bytes,
            count: text.len() as u8,
        }
    }

    fn bytes(&self) -> &[u8]
        ensures { result.now ≡ self.now }
    {
        &self.bytes[..self.count as usize]
    }
}

// Where the bytes of a text stand.
#[derive(Drop)]
enum Bytes {
    Short(Short),
    Long(Vec<u8>),
}

/// A text, which contracts see as the list of its bytes. It need not be UTF-8. A short one takes no memory of its own.
#[derive(Drop)]
pub struct Text {
    bytes: Bytes,
}

impl Model for Text {
    ghost use Rattle.std.specs.Prelude.{List, ℕ};
    ghost use Rattle.link_texts.specs.Texts.{bytes_in};

    ghost Value = { List ℕ };

    ghost view = { λ t. bytes_in t.bytes };
}

impl Text {
    // A copy of a few bytes.
    fn short(bytes: &[u8]) -> Text
        requires { length bytes.now ≤ MOST_SHORT }
        ensures { result ≡ bytes.now }
    {
        Text {
            bytes: Bytes::Short(Short::new(bytes)),
        }
    }

    /// A copy of these bytes.
    pub fn new(alloc: Global, bytes: &[u8]) -> Result<Text, NoMemory>
        ensures { IfOk result (λ text. text ≡ bytes.now) }
    {
        if bytes.len() <= MOST_SHORT {
            return Ok(Text::short(bytes));
        }
        let bytes = Bytes::Long(Vec::from_slice(alloc, bytes)?);
        Ok(Text { bytes })
    }

    /// The text of these bytes, which takes no memory.
    pub fn of(bytes: Vec<u8>) -> Text
        ensures { result ≡ bytes.items }
    {
        if bytes.len() <= MOST_SHORT {
            return Text::short(&bytes);
        }
        Text {
            bytes: Bytes::Long(bytes),
        }
    }

    /// The bytes.
    pub fn bytes(&self) -> &[u8]
        ensures { result.now ≡ self.now }
    {
        match &self.bytes {
            Bytes::Short(short) => short.bytes(),
            Bytes::Long(bytes) => bytes.as_slice(),
        }
    }

    /// The bytes themselves. Only those of a short text take memory.
    pub fn into_bytes(self, alloc: Global) -> Result<Vec<u8>, NoMemory>
        ensures { IfOk result (λ bytes. bytes.items ≡ self) }
    {
        match self.bytes {
            Bytes::Short(short) => Ok(Vec::from_slice(alloc, short.bytes())?),
            Bytes::Long(bytes) => Ok(bytes),
        }
    }

    /// An equal text.
    pub fn copy(&self, alloc: Global) -> Result<Text, NoMemory>
        ensures { IfOk result (λ text. text ≡ self.now) }
    {
        Text::new(alloc, self.bytes())
    }
}

// Texts are equal where their bytes are.
impl PartialEq for Text {
    ghost use Rattle.std.specs.Prelude.{nat_eq};
    ghost use Rattle.std.specs.Cmp.Lexicographic.{pointwise};

    ghost eq = { pointwise nat_eq };

    ghost laws = { partial_equiv_from_equiv nat_list_eq_equiv };

    fn eq(&self, other: &Text) -> bool {
        self.bytes() == other.bytes()
    }
}

impl Eq for Text {
    ghost laws = { nat_list_eq_equiv };
}

/// Texts, which contracts see as the list of them.
#[derive(Drop)]
pub struct TextList {
    texts: Vec<Text>,
}

impl Model for TextList {
    ghost Value = { List (List ℕ) };

    ghost view = { λ t. t.texts.items };
}

impl TextList {
    /// The list of no texts, which takes no memory.
    pub fn new(alloc: Global) -> TextList
        ensures { result ≡ [] }
    {
        TextList {
            texts: Vec::new(alloc),
        }
    }

    /// The list of these texts, which takes no memory.
    pub fn of(texts: Vec<Text>) -> TextList
        ensures { result ≡ texts.items }
    {
        TextList { texts }
    }

    /// Appends a text.
    pub fn push(&mut self, text: Text) -> Result<(), NoMemory>
        ensures ok { OnOk result (self.new ≡ self.old ++ text ∷ []) }
        ensures err { OnErr result (self.new ≡ self.old) }
    {
        self.texts.push(text)?;
        Ok(())
    }

    /// The texts.
    pub fn texts(&self) -> &[Text]
        ensures { result.now ≡ self.now }
    {
        &self.texts
    }
}

/// Appends a number in decimal digits.
pub fn push_number(alloc: Global, line: &mut Vec<u8>, number: u64) -> Result<(), NoMemory>
    ensures { OnOk result (line.new.items ≡ line.old.items ++ decimal number) }
{
    let digits = format!(in alloc; "{number}")?;
    line.extend_from_slice(digits.as_bytes())?;
    Ok(())
}
