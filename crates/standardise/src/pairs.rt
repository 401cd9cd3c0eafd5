// Words that stand in the place of words.
ghost use Rattle.std.specs.Prelude.{◌≡◌, ◌++◌, length, map, IfOk, IfSome, OnOk, option_map, IsUtf8};
ghost use Rattle.std.specs.List.Sorted.{IsBinarySearchResult, IsSearchInRange};
ghost use Rattle.standardise.specs.Names.{text_cmp, word_for, replaced, spaced_words, words};

use crate::outline::Outline;
use crate::word_set::order;
use crate::words::next_word;
use link_base::{NoMemory, WordPair, WordPairs};
use std::alloc::Global;
use std::marker::Model;

// Where a word stands in pairs, or where it would stand.
#[inline(never)]
fn place_in(pairs: &[WordPair], word: &[u8]) -> Result<usize, usize>
    ensures bound { IsSearchInRange result (length pairs.now) }
    ensures place { IsBinarySearchResult (λ p. text_cmp p.from word.now) pairs.now result }
{
    pairs.binary_search_by(|pair| order(&pair.from, word))
}

/// Pairs of words, which contracts see as the list of them, and the outline of the words that are replaced.
#[derive(Drop)]
pub(crate) struct WordTable {
    pairs: WordPairs,
    outline: Outline,
}

impl Model for WordTable {
    ghost use Rattle.std.specs.Prelude.{List};
    ghost use Rattle.link_base.specs.declared.tables.WordPair.{WordPair};
    ghost use Rattle.standardise.specs.Kept.{AreWithin};

    ghost Value = { List WordPair };

    ghost view = { λ t. t.pairs };

    ghost invariant = { λ t. AreWithin t.outline (λ (p : WordPair). p.from) t.pairs };
}

impl WordTable {
    /// The table of the same pairs.
    pub(crate) fn new(alloc: Global, pairs: &WordPairs) -> Result<WordTable, NoMemory>
        ensures { IfOk result (λ v. v ≡ pairs.now) }
    {
        let mut copies = Vec::new(alloc);
        let mut outline = Outline::none();
        for pair in pairs.pairs() {
            outline.add(pair.from.bytes());
            let from = pair.from.copy(alloc)?;
            let to = pair.to.copy(alloc)?;
            copies.push(WordPair { from, to })?;
        }
        let pairs = WordPairs::of(copies);
        Ok(WordTable { pairs, outline })
    }

    /// The word that stands in the place of a word.
    #[inline(always)]
    pub(crate) fn found(&self, word: &[u8]) -> Option<&[u8]>
        ensures word { option_map (λ s. s.now) result ≡ word_for self.now word.now }
        ensures utf8 { IfSome result (λ s. IsUtf8 s.now) }
    {
        if !self.outline.may_be(word) {
            return None;
        }
        let pairs = self.pairs.pairs();
        match place_in(pairs, word) {
            Ok(at) => Some(pairs[at].to.bytes()),
            Err(_) => None,
        }
    }
}

// A word, or the word that stands in its place.
#[inline(always)]
pub(crate) fn in_place<'a>(pairs: &'a WordTable, word: &'a [u8]) -> &'a [u8]
    ensures value { result.now ≡ replaced pairs.now word.now }
    ensures utf8 { IsUtf8 word.now → IsUtf8 result.now }
{
    match pairs.found(word) {
        Some(to) => to,
        None => word,
    }
}

// Appends the words of a text, each replaced, and each behind a space.
pub(crate) fn push_words(out: &mut Vec<u8>, text: &[u8], pairs: &WordTable) -> Result<(), NoMemory>
    ensures words { OnOk result (out.new.items ≡ out.old.items ++ spaced_words (map (replaced pairs.now) (words text.now))) }
    ensures utf8 { IsUtf8 out.old.items → IsUtf8 text.now → OnOk result (IsUtf8 out.new.items) }
{
    let mut left = text;
    while let Some((word, rest)) = next_word(left) {
        out.push(b' ')?;
        out.extend_from_slice(in_place(pairs, word))?;
        left = rest;
    }
    Ok(())
}
