// The key of a row in a pass.
ghost use Rattle.std.specs.Prelude.{◌≡◌, ◌<◌, IfOk, length, option_map};
ghost use Rattle.block_passes.specs.Numbering.{coded_texts};
ghost use Rattle.block_passes.specs.Keys.{AreReadable, InRange, IsPartReadable, key_in_pass, part_key};
ghost use Rattle.value_forms.specs.CanonTexts.{canon_bytes};

use crate::codes::push_text;
use link_base::{NoMemory, Row, Text};
use std::alloc::Global;
use std::marker::Model;
use value_forms::{CanonText, Part, Pass, bytes_of, canon_text};

/// The part of a key that a row has, `None` exactly where its value makes none.
pub fn part_text<'r>(row: &Row<'r>, part: Part) -> Option<CanonText<'r>>
    requires within { part.field < length row.now }
    requires readable { IsPartReadable row.now part }
    ensures { option_map canon_bytes result ≡ part_key row.now part }
{
    canon_text(part.key, &row.value(part.field as usize))
}

/// The key of a row in a pass, which contracts see as the list of its texts, one a part.
#[derive(Drop)]
pub struct PassKey {
    texts: Vec<Text>,
    code: Vec<u8>,
}

impl Model for PassKey {
    ghost use Rattle.std.specs.Prelude.{◌≡◌, ℕ, List};
    ghost use Rattle.block_passes.specs.Numbering.{coded_texts};

    ghost Value = { List (List ℕ) };

    ghost view = { λ k. k.texts.items };

    ghost invariant = { λ k. k.code.items ≡ coded_texts k.texts.items };
}

impl PassKey {
    /// The texts of the parts.
    pub fn texts(&self) -> &[Text]
        ensures { result.now ≡ self.now }
    {
        &self.texts
    }

    // The code.
    pub(crate) fn code(&self) -> &[u8]
        ensures { result.now ≡ coded_texts self.now }
    {
        &self.code
    }
}

/// The key of a row in a blocking pass: the list of the parts, `None` exactly where some part is
/// missing. A part of kind `Whole` is the text of a word or the date `YYYY-MM-DD` of a day, one of
/// kind `Soundex` or `Nysiis` the phonetic key of a word with a letter, one of kind `First` the first
/// characters of a word, and one of kind `Year` the four digits of a day's year.
pub fn pass_key(alloc: Global, row: &Row<'_>, pass: &Pass) -> Result<Option<PassKey>, NoMemory>
    requires in_range { InRange row.now pass.now }
    requires readable { AreReadable row.now pass.now }
    ensures { IfOk result (λ key. key ≡ key_in_pass row.now pass.now) }
{
    let mut texts = Vec::new(alloc);
    let mut code = Vec::new(alloc);
    for part in pass.parts() {
        match part_text(row, *part) {
            None => return Ok(None),
            Some(text) => {
                let bytes = bytes_of(&text);
                push_text(&mut code, bytes)?;
                texts.push(Text::new(alloc, bytes)?)?;
            }
        }
    }
    Ok(Some(PassKey { texts, code }))
}
