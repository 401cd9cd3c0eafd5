// The characters of a name, cleaned.
ghost use Rattle.std.specs.Prelude.{◌≡◌, ◌++◌, ◌∷◌, ◌&&◌, [], IsTrue, OnOk, IfOk, IfSome, chars, encode_utf8_all, flat_map, nat_le, option_to_list, IsAscii, IsUtf8, string_bytes};
ghost use Rattle.standardise.specs.Cleaning.{ascii_cleaned, cleaned_char, in_apostrophes, in_capitals, letter_of, stays_in_words, with_spaces, without_apostrophes};
ghost use Rattle.standardise.specs.Names.{characters_of, words};

use crate::words::is_one_word;
use link_base::NoMemory;
use std::alloc::Global;
use ucd_category::{GeneralCategory, GeneralCategoryGroup};
use unicode_normalization::slice::extend_nfd;

fn is_apostrophe(c: char) -> bool
    ensures { result ≡ in_apostrophes c }
{
    c == '\'' || c == '`' || c == '\u{B4}' || c == '\u{2BC}' || c == '\u{2018}' || c == '\u{2019}'
}

fn is_word_char(c: char) -> bool
    ensures { result ≡ stays_in_words c }
{
    c.is_ascii_uppercase()
        || c.is_ascii_digit()
        || (c >= '\u{80}' && GeneralCategoryGroup::Letter.contains(GeneralCategory::for_char(c)))
}

// The letters that stand for a letter.
#[tactic(auto, unfolding(crate::specs::Cleaning::letter_of))]
fn letters(c: char) -> (char, Option<char>)
    ensures { letter_of c ≡ result.0 ∷ option_to_list result.1 }
{
    match c {
        '\u{DF}' | '\u{1E9E}' => ('S', Some('S')),
        '\u{C6}' | '\u{E6}' => ('A', Some('E')),
        '\u{152}' | '\u{153}' => ('O', Some('E')),
        '\u{00D8}' | '\u{F8}' => ('O', None),
        '\u{141}' | '\u{142}' => ('L', None),
        '\u{110}' | '\u{111}' | '\u{D0}' | '\u{F0}' => ('D', None),
        '\u{DE}' | '\u{FE}' => ('T', Some('H')),
        _ => (c, None),
    }
}

// Appends a letter after the steps behind the letter table.
fn push_letter(out: &mut String, c: char) -> Result<(), NoMemory>
    ensures { OnOk result (string_bytes out.new ≡ string_bytes out.old ++ encode_utf8_all (with_spaces (without_apostrophes (in_capitals (c ∷ []))))) }
{
    let capital = c.to_ascii_uppercase();
    if is_apostrophe(capital) {
        return Ok(());
    }
    out.push(if is_word_char(capital) { capital } else { ' ' })?;
    Ok(())
}

// Appends what becomes of a character.
#[tactic(auto, using(crate::proofs::WordLemmas::two_letters))]
fn push_cleaned(out: &mut String, c: char) -> Result<(), NoMemory>
    ensures { OnOk result (string_bytes out.new ≡ string_bytes out.old ++ encode_utf8_all (cleaned_char c)) }
{
    if GeneralCategoryGroup::Mark.contains(GeneralCategory::for_char(c)) {
        return Ok(());
    }
    let (first, second) = letters(c);
    push_letter(out, first)?;
    match second {
        Some(second) => push_letter(out, second),
        None => Ok(()),
    }
}

// Appends what becomes of characters.
fn push_all_cleaned(out: &mut String, cs: &[char]) -> Result<(), NoMemory>
    ensures { OnOk result (string_bytes out.new ≡ string_bytes out.old ++ encode_utf8_all (flat_map cleaned_char cs.now)) }
{
    for c in cs {
        push_cleaned(out, *c)?;
    }
    Ok(())
}

fn chars_of(alloc: Global, text: &str) -> Result<Vec<char>, NoMemory>
    ensures { IfOk result (λ v. v.items ≡ chars text.now) }
{
    let plain: Vec<char> = text.chars().collect(alloc)?;
    Ok(plain)
}

// The text after the canonical decomposition and the five steps behind it.
#[tactic(auto, using(crate::proofs::WordLemmas::cleaned_by_char), unfolding(crate::specs::Names::characters_of))]
fn clean_chars(alloc: Global, text: &str) -> Result<String, NoMemory>
    ensures { IfOk result (λ v. string_bytes v ≡ encode_utf8_all (characters_of text.now)) }
{
    let plain = chars_of(alloc, text)?;
    let mut decomposed = Vec::new(alloc);
    extend_nfd(&mut decomposed, &plain)?;
    let mut out = String::new(alloc);
    push_all_cleaned(&mut out, &decomposed)?;
    Ok(out)
}

// What becomes of an ASCII character.
#[tactic(auto, unfolding(crate::specs::Cleaning::ascii_cleaned))]
fn cleaned_ascii(byte: u8) -> Option<u8>
    ensures { result ≡ ascii_cleaned byte }
{
    if byte.is_ascii_lowercase() {
        Some(byte - 32)
    } else if byte.is_ascii_uppercase() || byte.is_ascii_digit() {
        Some(byte)
    } else if byte == b'\'' || byte == b'`' {
        None
    } else {
        Some(b' ')
    }
}

// Puts an ASCII text after the five steps in place of what stood in `word`, byte by byte, and says whether it is one word.
// `None` for any other text.
fn clean_ascii(text: &[u8], word: &mut Vec<u8>) -> Result<Option<bool>, NoMemory>
    ensures ascii { IfOk result (λ told. IfSome told (λ is_word. IsAscii text.now)) }
    ensures text { IfOk result (λ told. IfSome told (λ is_word. word.new.items ≡ flat_map (λ c. option_to_list (ascii_cleaned c)) text.now)) }
    ensures word { IfOk result (λ told. IfSome told (λ is_word. IsTrue is_word → words word.new.items ≡ word.new.items ∷ [])) }
{
    word.clear();
    word.reserve(text.len())?;
    let mut spaced = false;
    for byte in text {
        if *byte >= 128 {
            return Ok(None);
        }
        if let Some(cleaned) = cleaned_ascii(*byte) {
            word.push_reserved(cleaned);
            spaced |= cleaned == b' ';
        }
    }
    let is_word = !word.is_empty() && !spaced;
    Ok(Some(is_word))
}

// Digits are asked for apart, since few names have them.
#[inline(never)]
fn is_digit(byte: u8) -> bool
    ensures { result ≡ (nat_le 48 byte && nat_le byte 57) }
{
    byte.is_ascii_digit()
}

/// Whether a text is known to be one word that the steps leave as it is: one of A to Z and 0 to 9.
pub(crate) fn is_clean(text: &str) -> bool
    ensures text { IsTrue result → text.now ≡ encode_utf8_all (characters_of text.now) }
    ensures word { IsTrue result → words text.now ≡ text.now ∷ [] }
{
    let bytes = text.as_bytes();
    for byte in bytes {
        if !byte.is_ascii_uppercase() && !is_digit(*byte) {
            return false;
        }
    }
    !bytes.is_empty()
}

/// Puts the text after the canonical decomposition and the five steps behind it in place of what stood in `word`, and says
/// whether it is known to be one word, with nothing beside it. An ASCII text, which has none of what the decomposition and the
/// general categories decide, is gone over once.
pub(crate) fn clean(alloc: Global, text: &str, word: &mut Vec<u8>) -> Result<bool, NoMemory>
    ensures text { OnOk result (word.new.items ≡ encode_utf8_all (characters_of text.now)) }
    ensures utf8 { OnOk result (IsUtf8 word.new.items) }
    ensures word { IfOk result (λ is_word. IsTrue is_word → words word.new.items ≡ word.new.items ∷ []) }
{
    if let Some(is_word) = clean_ascii(text.as_bytes(), word)? {
        return Ok(is_word);
    }
    let cleaned = clean_chars(alloc, text)?;
    word.clear();
    word.extend_from_slice(cleaned.as_bytes())?;
    Ok(is_one_word(word))
}
