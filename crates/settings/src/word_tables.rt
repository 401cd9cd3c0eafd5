// Lists of texts, and tables from word to word.
ghost use Rattle.std.specs.Prelude.{◌≡◌, [], IfOk, true};
ghost use Rattle.toml.specs.View.{view, table_view};
ghost use Rattle.settings_readers.specs.KeyFaults.{Gives, IsAnswer, keys_ascend};
ghost use Rattle.settings.specs.Words.{text, texts, word_pair, pairs, small_table, word_table};

use crate::texts::{TextRule, fits};
use link_base::{Text, TextList, WordPair, WordPairs};
use link_plan::MOST_WORD_PAIRS;
use settings_readers::{Element, Items, KeyFault, Place, Reader, keys_ascend};
use std::alloc::Global;
use toml::{Table, Value};

impl Element for TextRule {
    type Item = Text;

    ghost gives = { λ rule before. text rule };

    fn read(
        &self,
        alloc: Global,
        _before: &[Text],
        place: &Place,
        value: &Value,
    ) -> Result<Text, KeyFault> {
        Reader::read(self, alloc, place, value)
    }
}

/// An array of at most so many texts.
#[derive(Drop)]
pub(crate) struct Texts {
    pub(crate) most: usize,
    pub(crate) rule: TextRule,
}

impl Reader for Texts {
    type Item = TextList;

    ghost gives = { λ t. texts t.most t.rule };

    fn read(&self, alloc: Global, place: &Place, value: &Value) -> Result<TextList, KeyFault> {
        let items = Items {
            low: 0,
            high: self.most,
            element: self.rule,
        };
        Ok(TextList::of(items.read(alloc, place, value)?))
    }
}

fn word_pair(alloc: Global, place: &Place, key: &str, value: &Value) -> Result<WordPair, KeyFault>
    ensures { IsAnswer (word_pair place.now key.now (view value.now)) result }
{
    if !fits(TextRule::Word, key) {
        return place.out_of_range(alloc);
    }
    let to = Reader::read(&TextRule::Word, alloc, place, value)?;
    let from = Text::new(alloc, key.as_bytes())?;
    Ok(WordPair { from, to })
}

/// The entries of a word table, in the order of their keys.
fn pairs(alloc: Global, table: &Table, above: &[u8]) -> Result<Vec<WordPair>, KeyFault>
    ensures { Gives (λ v. v.items) (pairs above.now (table_view table.now) []) result }
{
    let mut before = Vec::new(alloc);
    for (key, value) in table {
        let place = Place::new(above, key.as_str().as_bytes());
        match word_pair(alloc, &place, key.as_str(), value) {
            Ok(pair) => before.push(pair)?,
            Err(fault) => return Err(fault),
        }
    }
    Ok(before)
}

fn small_table<'a>(alloc: Global, place: &Place, value: &'a Value) -> Result<&'a Table, KeyFault>
    ensures gives { Gives (λ t. table_view t.now) (small_table place.now (view value.now)) result }
    ensures ascending { IfOk result (λ t. keys_ascend (table_view t.now) ≡ true) }
{
    match value.as_table() {
        None => place.wrong_type(alloc),
        Some(table) => {
            if MOST_WORD_PAIRS < table.len() {
                return place.out_of_range(alloc);
            }
            keys_ascend(table);
            Ok(table)
        }
    }
}

/// A table of at most `MOST_WORD_PAIRS` words.
#[derive(Drop)]
pub(crate) struct WordTable;

impl Reader for WordTable {
    type Item = WordPairs;

    ghost gives = { λ _. word_table };

    fn read(&self, alloc: Global, place: &Place, value: &Value) -> Result<WordPairs, KeyFault> {
        let table = small_table(alloc, place, value)?;
        let above = place.below(alloc)?;
        let pairs = pairs(alloc, table, &above)?;
        Ok(WordPairs::of(pairs))
    }
}
