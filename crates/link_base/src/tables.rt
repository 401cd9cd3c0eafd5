// The words and marks that standard values go by.
ghost use Rattle.std.specs.Prelude.{◌≡◌, [], IfOk, map};
ghost use Rattle.link_base.specs.Tables.{AreWordPairs, missing_marks, name_suffixes, name_titles};

use link_texts::{NoMemory, Text, TextList};
use std::alloc::Global;
use std::marker::Model;

/// A word, and the word that stands in its place. A word has 1 to 32 bytes of A to Z and 0 to 9.
#[derive(Drop)]
pub struct WordPair {
    pub from: Text,
    pub to: Text,
}

/// Pairs of words, which contracts see as the list of them. They rise strictly by the bytes of `from`.
#[derive(Drop)]
pub struct WordPairs {
    pairs: Vec<WordPair>,
}

impl Model for WordPairs {
    ghost use Rattle.std.specs.Prelude.{List};
    ghost use Rattle.link_base.specs.Tables.{AreWordPairs};
    ghost use Rattle.link_base.specs.declared.tables.WordPair.{WordPair};

    ghost Value = { List WordPair };

    ghost view = { λ t. t.pairs.items };

    ghost invariant = { λ t. AreWordPairs t.pairs.items };
}

impl WordPairs {
    /// The list of these pairs, which takes no memory.
    pub fn of(pairs: Vec<WordPair>) -> WordPairs
        requires { AreWordPairs pairs.items }
        ensures { result ≡ pairs.items }
    {
        WordPairs { pairs }
    }

    /// The pairs.
    pub fn pairs(&self) -> &[WordPair]
        ensures all { result.now ≡ self.now }
        ensures rising { AreWordPairs self.now }
    {
        &self.pairs
    }
}

/// What standard values go by: marks of a missing value, titles and suffixes of names, and the words
/// that are replaced in names and in places.
#[derive(Drop)]
pub struct Tables {
    pub missing: TextList,
    pub titles: TextList,
    pub suffixes: TextList,
    pub names: WordPairs,
    pub places: WordPairs,
}

const MISSING: [&str; 4] = ["", "-", "?", "N/A"];

const TITLES: [&str; 8] = ["MR", "MRS", "MS", "MISS", "DR", "PROF", "REV", "SIR"];

const SUFFIXES: [&str; 5] = ["JR", "SR", "II", "III", "IV"];

fn texts_of(alloc: Global, all: &[&str]) -> Result<TextList, NoMemory>
    ensures { IfOk result (λ texts. texts ≡ map (λ text. text.now) all.now) }
{
    let mut texts = TextList::new(alloc);
    for text in all {
        texts.push(Text::new(alloc, text.as_bytes())?)?;
    }
    Ok(texts)
}

fn no_pairs(alloc: Global) -> WordPairs
    ensures { result ≡ [] }
{
    WordPairs::of(Vec::new(alloc))
}

impl Tables {
    /// The tables of a settings file that names none.
    pub fn standard(alloc: Global) -> Result<Tables, NoMemory>
        ensures missing { IfOk result (λ tables. tables.missing ≡ missing_marks) }
        ensures titles { IfOk result (λ tables. tables.titles ≡ name_titles) }
        ensures suffixes { IfOk result (λ tables. tables.suffixes ≡ name_suffixes) }
        ensures names { IfOk result (λ tables. tables.names ≡ []) }
        ensures places { IfOk result (λ tables. tables.places ≡ []) }
    {
        Ok(Tables {
            missing: texts_of(alloc, &MISSING)?,
            titles: texts_of(alloc, &TITLES)?,
            suffixes: texts_of(alloc, &SUFFIXES)?,
            names: no_pairs(alloc),
            places: no_pairs(alloc),
        })
    }
}
