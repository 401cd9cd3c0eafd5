// Names and places.
ghost use Rattle.std.specs.Prelude.{◌≡◌, ◌∷◌, [], IfOk, option_map, IsUtf8};
ghost use Rattle.link_base.specs.Standard.{IsValid};
ghost use Rattle.standardise.specs.Names.{found_value, text_value, word_or_absent, words_of_text, joined, replaced, without_titles, words};

use crate::cleaning::{clean, is_clean};
use crate::pairs::{WordTable, in_place, push_words};
use crate::tables::TextTables;
use crate::white_space::trimmed;
use crate::words::next_word;
use link_base::{NoMemory, Text, Value};
use std::alloc::Global;

/// Room in which the text of a standard value is made.
#[derive(Drop)]
pub struct TextRoom {
    cleaned: Vec<u8>,
    joined: Vec<u8>,
}

impl TextRoom {
    /// Room that takes no memory before it is used.
    pub fn new(alloc: Global) -> TextRoom {
        TextRoom {
            cleaned: Vec::new(alloc),
            joined: Vec::new(alloc),
        }
    }
}

/// The standard value of a name or of a place, by its tables. White space at both ends is dropped, and a missing mark is absent.
/// Then, in turn: the canonical decomposition of Unicode; combining marks are dropped; ß, Æ, Œ, Ø, Ł,
/// Đ, Ð and Þ become SS, AE, OE, O, L, D, D and TH; a to z become A to Z; apostrophes are dropped;
/// all but A to Z, 0 to 9 and letters past ASCII become spaces. Of the words, while there is more than
/// one, titles are dropped at the front, and titles and suffixes at the end. Words of the table are
/// replaced, once. The words are joined by one space; no word is absent.
pub fn std_text(alloc: Global, text: &str, tables: &TextTables) -> Result<Value, NoMemory>
    ensures value { IfOk result (λ v. v ≡ text_value tables.now text.now) }
    ensures valid { IfOk result (λ v. IsValid v) }
{
    let mut room = TextRoom::new(alloc);
    match std_text_in(alloc, text, tables, &mut room)? {
        Some(text) => Ok(Value::Word(Text::new(alloc, text)?)),
        None => Ok(Value::Absent),
    }
}

/// The text of this value, `None` where the value is absent. It stands in `text` or among the words of the
/// tables where it need not be made, and else in the room, in place of what stood there.
#[inline(always)]
pub fn std_text_in<'t>(
    alloc: Global,
    text: &'t str,
    tables: &'t TextTables,
    room: &'t mut TextRoom,
) -> Result<Option<&'t [u8]>, NoMemory>
    ensures value { IfOk result (λ found. found_value (option_map (λ text. text.now) found) ≡ text_value tables.now text.now) }
    ensures valid { IfOk result (λ found. IsValid (found_value (option_map (λ text. text.now) found))) }
{
    let text = trimmed(text);
    if tables.is_missing(text.as_bytes()) {
        return Ok(None);
    }
    if is_clean(text) {
        return Ok(Some(in_place(tables.pairs(), text.as_bytes())));
    }
    make_text(alloc, text, tables, room)
}

// The text of the value of a text without white space at its ends that is no mark.
#[inline(never)]
fn make_text<'t>(
    alloc: Global,
    text: &str,
    tables: &'t TextTables,
    room: &'t mut TextRoom,
) -> Result<Option<&'t [u8]>, NoMemory>
    ensures value { IfOk result (λ found. found_value (option_map (λ text. text.now) found) ≡ word_or_absent tables.now.words (without_titles tables.now.titles tables.now.suffixes (words_of_text text.now))) }
    ensures valid { IfOk result (λ found. IsValid (found_value (option_map (λ text. text.now) found))) }
{
    if clean(alloc, text, &mut room.cleaned)? {
        return Ok(Some(in_place(tables.pairs(), &room.cleaned)));
    }
    let words = tables.untitled(&room.cleaned);
    join_words(&mut room.joined, words, tables.pairs())
}

// The words of a text, each replaced, with a space between them, if there is one. They are put in place of what stood in `out`.
fn join_words<'o>(
    out: &'o mut Vec<u8>,
    text: &[u8],
    pairs: &WordTable,
) -> Result<Option<&'o [u8]>, NoMemory>
    requires utf8 { IsUtf8 text.now }
    ensures value { IfOk result (λ found. found_value (option_map (λ text. text.now) found) ≡ word_or_absent pairs.now (words text.now)) }
    ensures valid { IfOk result (λ found. IsValid (found_value (option_map (λ text. text.now) found))) }
{
    let Some((first, rest)) = next_word(text) else {
        return Ok(None);
    };
    out.clear();
    out.reserve(text.len())?;
    out.extend_from_slice(in_place(pairs, first))?;
    push_words(out, rest, pairs)?;
    Ok(Some(out))
}
