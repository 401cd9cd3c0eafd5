// The words of a text: the longest runs without a space.
ghost use Rattle.std.specs.Prelude.{◌≡◌, ◌+◌, ◌++◌, ◌∷◌, [], ◌<◌, take, drop, length, IfSome, MatchOption, IsTrue, ◌↔◌, ◌≢◌, IsUtf8};
ghost use Rattle.link_texts.specs.Texts.{stands_among};
ghost use Rattle.standardise.specs.Names.{run_words, without_first, without_last, words};

use crate::word_set::WordSet;

// The place of the first space.
fn first_space(text: &[u8]) -> Option<usize>
    ensures within { IfSome result (λ i. i < length text.now) }
    ensures words { MatchOption result (words text.now ≡ run_words text.now) (λ i. words text.now ≡ run_words (take i text.now) ++ words (drop (i + 1) text.now)) }
    ensures utf8 { IsUtf8 text.now → IfSome result (λ i. IsUtf8 (take i text.now) × IsUtf8 (drop (i + 1) text.now)) }
{
    for (i, byte) in text.iter().enumerate() {
        if *byte == b' ' {
            return Some(i);
        }
    }
    None
}

// The place of the last space.
fn last_space(text: &[u8]) -> Option<usize>
    ensures within { IfSome result (λ i. i < length text.now) }
    ensures words { MatchOption result (words text.now ≡ run_words text.now) (λ i. words text.now ≡ words (take i text.now) ++ run_words (drop (i + 1) text.now)) }
    ensures utf8 { IsUtf8 text.now → IfSome result (λ i. IsUtf8 (take i text.now) × IsUtf8 (drop (i + 1) text.now)) }
{
    let mut end = text.len();
    while end > 0 {
        if text[end - 1] == b' ' {
            return Some(end - 1);
        }
        end -= 1;
    }
    None
}

// What stands before a place and behind it.
fn parted(text: &[u8], at: usize) -> (&[u8], &[u8])
    requires { at < length text.now }
    ensures front { result.0.now ≡ take at text.now }
    ensures back { result.1.now ≡ drop (at + 1) text.now }
{
    (&text[..at], &text[at + 1..])
}

/// Whether a text is one word, with nothing beside it.
pub(crate) fn is_one_word(text: &[u8]) -> bool
    ensures { IsTrue result → words text.now ≡ text.now ∷ [] }
{
    match first_space(text) {
        Some(_) => false,
        None => !text.is_empty(),
    }
}

/// The first word of a text, and what follows it.
pub(crate) fn next_word(text: &[u8]) -> Option<(&[u8], &[u8])>
    ensures words { MatchOption result (words text.now ≡ []) (λ found. words text.now ≡ found.0.now ∷ words found.1.now) }
    ensures shorter { IfSome result (λ found. length found.1.now < length text.now) }
    ensures utf8 { IsUtf8 text.now → IfSome result (λ found. IsUtf8 found.0.now × IsUtf8 found.1.now) }
{
    let mut left = text;
    while let Some(at) = first_space(left) {
        let (word, rest) = parted(left, at);
        if !word.is_empty() {
            return Some((word, rest));
        }
        left = rest;
    }
    if left.is_empty() {
        return None;
    }
    Some((left, &[]))
}

/// The last word of a text, and what stands before it.
pub(crate) fn last_word(text: &[u8]) -> Option<(&[u8], &[u8])>
    ensures words { MatchOption result (words text.now ≡ []) (λ found. words text.now ≡ words found.1.now ++ found.0.now ∷ []) }
    ensures shorter { IfSome result (λ found. length found.1.now < length text.now) }
    ensures utf8 { IsUtf8 text.now → IfSome result (λ found. IsUtf8 found.0.now × IsUtf8 found.1.now) }
{
    let mut left = text;
    while let Some(at) = last_space(left) {
        let (rest, word) = parted(left, at);
        if !word.is_empty() {
            return Some((word, rest));
        }
        left = rest;
    }
    if left.is_empty() {
        return None;
    }
    Some((left, &[]))
}

/// The text without the words at its front that stand in the set, while there is more than one.
pub(crate) fn dropped_at_front<'a>(text: &'a [u8], titles: &WordSet) -> &'a [u8]
    ensures words { words result.now ≡ without_first titles.now (words text.now) }
    ensures utf8 { IsUtf8 text.now → IsUtf8 result.now }
{
    let mut left = text;
    while let Some((word, rest)) = next_word(left) {
        if next_word(rest).is_none() {
            return left;
        }
        if !titles.contains(word) {
            return left;
        }
        left = rest;
    }
    left
}

fn is_either(titles: &WordSet, suffixes: &WordSet, word: &[u8]) -> bool
    ensures { result ≡ stands_among (titles.now ++ suffixes.now) word.now }
{
    titles.contains(word) || suffixes.contains(word)
}

/// The text without the words at its end that stand in one of the sets, while there is more than one.
pub(crate) fn dropped_at_end<'a>(text: &'a [u8], titles: &WordSet, suffixes: &WordSet) -> &'a [u8]
    ensures words { words result.now ≡ without_last (titles.now ++ suffixes.now) (words text.now) }
    ensures utf8 { IsUtf8 text.now → IsUtf8 result.now }
{
    let mut left = text;
    while let Some((word, rest)) = last_word(left) {
        if last_word(rest).is_none() {
            return left;
        }
        if !is_either(titles, suffixes, word) {
            return left;
        }
        left = rest;
    }
    left
}
