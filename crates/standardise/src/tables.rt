// The tables of names and of places.
ghost use Rattle.std.specs.Prelude.{◌≡◌, IfOk, IsUtf8};
ghost use Rattle.link_texts.specs.Texts.{stands_among};
ghost use Rattle.standardise.specs.Names.{names_of, places_of, without_titles, words};

use crate::pairs::WordTable;
use crate::word_set::WordSet;
use crate::words::{dropped_at_end, dropped_at_front};
use link_base::{NoMemory, Tables, Text, WordPairs};
use std::alloc::Global;
use std::marker::Model;

/// The marks of a missing value, the titles, the suffixes and the words that names go by, or places.
#[derive(Drop)]
pub struct TextTables {
    marks: WordSet,
    titles: WordSet,
    suffixes: WordSet,
    words: WordTable,
}

impl Model for TextTables {
    ghost use Rattle.standardise.specs.Names.{TextView};

    ghost Value = { TextView };

    ghost view = { λ t. record { marks = t.marks; titles = t.titles; suffixes = t.suffixes; words = t.words } };
}

impl TextTables {
    /// The tables of names of a plan.
    pub fn of_names(alloc: Global, plan: &Tables) -> Result<TextTables, NoMemory>
        ensures { IfOk result (λ t. t ≡ names_of plan.now) }
    {
        let titles = plan.titles.texts();
        let suffixes = plan.suffixes.texts();
        TextTables::new(alloc, plan, titles, suffixes, &plan.names)
    }

    /// The tables of places of a plan, which have no titles and no suffixes.
    pub fn of_places(alloc: Global, plan: &Tables) -> Result<TextTables, NoMemory>
        ensures { IfOk result (λ t. t ≡ places_of plan.now) }
    {
        TextTables::new(alloc, plan, &[], &[], &plan.places)
    }

    // The tables of these, with the marks of a plan.
    fn new(
        alloc: Global,
        plan: &Tables,
        titles: &[Text],
        suffixes: &[Text],
        words: &WordPairs,
    ) -> Result<TextTables, NoMemory>
        ensures { IfOk result (λ t. t ≡ record { marks = plan.now.missing; titles = titles.now; suffixes = suffixes.now; words = words.now }) }
    {
        Ok(TextTables {
            marks: WordSet::new(alloc, plan.missing.texts())?,
            titles: WordSet::new(alloc, titles)?,
            suffixes: WordSet::new(alloc, suffixes)?,
            words: WordTable::new(alloc, words)?,
        })
    }

    /// Whether a text is one of the missing marks.
    pub(crate) fn is_missing(&self, text: &[u8]) -> bool
        ensures { result ≡ stands_among self.now.marks text.now }
    {
        self.marks.contains(text)
    }

    /// The text without titles at its front, and without titles and suffixes at its end.
    pub(crate) fn untitled<'a>(&self, text: &'a [u8]) -> &'a [u8]
        ensures words { words result.now ≡ without_titles self.now.titles self.now.suffixes (words text.now) }
        ensures utf8 { IsUtf8 text.now → IsUtf8 result.now }
    {
        let rest = dropped_at_front(text, &self.titles);
        dropped_at_end(rest, &self.titles, &self.suffixes)
    }

    pub(crate) fn pairs(&self) -> &WordTable
        ensures { result.now ≡ self.now.words }
    {
        &self.words
    }
}
