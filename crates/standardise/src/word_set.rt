// Texts that are found by an ordered search.
ghost use Rattle.std.specs.Prelude.{◌≡◌, IfOk, length};
ghost use Rattle.std.specs.List.Sorted.{IsBinarySearchResult, IsSearchInRange};
ghost use Rattle.link_texts.specs.Texts.{stands_among};
ghost use Rattle.standardise.specs.Names.{text_cmp};
ghost use Rattle.standardise.specs.Kept.{IsOrdered};

use crate::outline::Outline;
use link_base::{NoMemory, Text};
use std::alloc::Global;
use std::cmp::Ordering;
use std::marker::Model;

/// Texts, which contracts see as the list of them. They are held a second time in the order of their
/// bytes, for the search, and their outline tells most texts that are none of them.
#[derive(Drop)]
pub(crate) struct WordSet {
    texts: Vec<Text>,
    ordered: Vec<Text>,
    outline: Outline,
}

impl Model for WordSet {
    ghost use Rattle.std.specs.Prelude.{List, ℕ};
    ghost use Rattle.standardise.specs.Kept.{AreWithin, IsOrdered};

    ghost Value = { List (List ℕ) };

    ghost view = { λ s. s.texts.items };

    ghost invariant = { λ s. IsOrdered s.texts.items s.ordered.items × AreWithin s.outline (λ t. t) s.texts.items };
}

impl WordSet {
    /// The set of these texts.
    pub(crate) fn new(alloc: Global, texts: &[Text]) -> Result<WordSet, NoMemory>
        ensures { IfOk result (λ set. set ≡ texts.now) }
    {
        let mut copies = Vec::new(alloc);
        let mut ordered = Vec::new(alloc);
        let mut outline = Outline::none();
        for text in texts {
            let copy = text.copy(alloc)?;
            copies.push(copy)?;
            let other = text.copy(alloc)?;
            ordered.push(other)?;
            outline.add(text.bytes());
        }
        Ok(WordSet {
            texts: copies,
            ordered: in_order(ordered),
            outline,
        })
    }

    /// Whether a text stands in the set.
    #[inline(always)]
    pub(crate) fn contains(&self, text: &[u8]) -> bool
        ensures { result ≡ stands_among self.now text.now }
    {
        if !self.outline.may_be(text) {
            return false;
        }
        match place_in(&self.ordered, text) {
            Ok(_) => true,
            Err(_) => false,
        }
    }
}

pub(crate) fn order(text: &Text, other: &[u8]) -> Ordering
    ensures { result ≡ text_cmp text.now other.now }
{
    text.bytes().cmp(other)
}

// Where a text stands in texts, or where it would stand.
#[inline(never)]
fn place_in(texts: &[Text], text: &[u8]) -> Result<usize, usize>
    ensures bound { IsSearchInRange result (length texts.now) }
    ensures place { IsBinarySearchResult (λ t. text_cmp t text.now) texts.now result }
{
    texts.binary_search_by(|held| order(held, text))
}

// The texts in the order of their bytes.
fn in_order(mut texts: Vec<Text>) -> Vec<Text>
    ensures { IsOrdered texts.items result.items }
{
    texts.sort_unstable_by(|text, other| order(text, other.bytes()));
    texts
}
