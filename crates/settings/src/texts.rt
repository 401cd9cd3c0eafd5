// Texts and numbers in their ranges.
ghost use Rattle.std.specs.Prelude.{◌≡◌, IsUtf8, Ok};
ghost use Rattle.std.specs.List.{list_all};
ghost use Rattle.toml.specs.View.{table_view, view};
ghost use Rattle.settings_readers.specs.KeyFaults.{Gives, IsAnswer};
ghost use Rattle.link_base.specs.Tables.{is_word_byte};
ghost use Rattle.settings_readers.specs.Values.{defaulted};
ghost use Rattle.settings.specs.declared.texts.TextRule.TheVariants as rule;
ghost use Rattle.link_plan.specs.Plan.{is_output, is_name_byte};
ghost use Rattle.settings.specs.Words.{fits, text};

use link_base::Text;
use link_limits::{MOST_NAME_BYTES, MOST_WORD_BYTES};
use link_plan::{MOST_FIELD_NAME_BYTES, MOST_LABEL_BYTES, MOST_MARK_BYTES};
use settings_readers::{KeyFault, Keys, Place, Reader, is_listed};
use std::alloc::Global;
use std::marker::Model;
use toml::Value;

/// Which texts are in range at a key.
#[derive(Clone, Copy)]
pub(crate) enum TextRule {
    /// A file that is read: 1 to 255 bytes, and none of the files that a run writes.
    File,
    /// 1 to 255 bytes.
    Label,
    /// At most 64 bytes.
    Mark,
    /// 1 to 32 bytes of A to Z and 0 to 9.
    Word,
    /// 1 to 32 bytes of a to z, 0 to 9 and _.
    FieldName,
}

const OUTPUTS: [&str; 5] = [
    "pairs.csv",
    "rule.csv",
    "links.csv",
    "prices.csv",
    "report.txt",
];

/// Whether a name is that of a file that a run writes.
pub fn is_output(text: &str) -> bool
    ensures { result ≡ is_output text.now }
{
    is_listed(&OUTPUTS, text)
}

fn is_word_byte(byte: u8) -> bool
    ensures { result ≡ is_word_byte byte }
{
    matches!(byte, b'A'..=b'Z' | b'0'..=b'9')
}

fn is_name_byte(byte: u8) -> bool
    ensures { result ≡ is_name_byte byte }
{
    matches!(byte, b'a'..=b'z' | b'0'..=b'9' | b'_')
}

fn has_word_bytes(text: &[u8]) -> bool
    ensures { result ≡ list_all is_word_byte text.now }
{
    text.iter().all(|byte| is_word_byte(*byte))
}

fn has_name_bytes(text: &[u8]) -> bool
    ensures { result ≡ list_all is_name_byte text.now }
{
    text.iter().all(|byte| is_name_byte(*byte))
}

/// Whether a text is in range.
pub(crate) fn fits(rule: TextRule, text: &str) -> bool
    ensures { result ≡ fits rule text.now }
{
    let len = text.len();
    match rule {
        TextRule::File => 1 <= len && len <= MOST_NAME_BYTES && !is_output(text),
        TextRule::Label => 1 <= len && len <= MOST_LABEL_BYTES,
        TextRule::Mark => len <= MOST_MARK_BYTES,
        TextRule::Word => 1 <= len && len <= MOST_WORD_BYTES && has_word_bytes(text.as_bytes()),
        TextRule::FieldName => {
            1 <= len && len <= MOST_FIELD_NAME_BYTES && has_name_bytes(text.as_bytes())
        }
    }
}

/// A text in its range.
fn text_in<'a>(
    alloc: Global,
    rule: TextRule,
    place: &Place,
    value: &'a Value,
) -> Result<&'a str, KeyFault>
    ensures { Gives (λ text. text.now) (text rule place.now (view value.now)) result }
{
    match value.as_str() {
        None => place.wrong_type(alloc),
        Some(text) => {
            if !fits(rule, text) {
                return place.out_of_range(alloc);
            }
            Ok(text)
        }
    }
}

/// The label at a key; it is this one where the key is not there.
pub(crate) fn label(alloc: Global, default: &[u8], keys: &Keys, key: &str) -> Result<Text, KeyFault>
    ensures { IsAnswer (defaulted (text rule.Label) default.now (table_view keys.now.table.now) keys.now.above.now key.now) result }
{
    let default = Text::new(alloc, default)?;
    keys.defaulted(alloc, &TextRule::Label, default, key)
}

impl Reader for TextRule {
    type Item = Text;

    ghost gives = { text };

    fn read(&self, alloc: Global, place: &Place, value: &Value) -> Result<Text, KeyFault> {
        match text_in(alloc, *self, place, value) {
            Ok(text) => Ok(Text::new(alloc, text.as_bytes())?),
            Err(fault) => Err(fault),
        }
    }
}

/// The name of a file that is read, which is UTF-8.
#[derive(Drop)]
pub(crate) struct FileName {
    name: Text,
}

impl Model for FileName {
    ghost use Rattle.std.specs.Prelude.{List, ℕ, IsUtf8};

    ghost Value = { List ℕ };

    ghost view = { λ f. f.name };

    ghost invariant = { λ f. IsUtf8 f.name };
}

impl FileName {
    fn new(alloc: Global, name: &str) -> Result<FileName, KeyFault>
        ensures { IsAnswer (Ok name.now) result }
    {
        let name = Text::new(alloc, name.as_bytes())?;
        Ok(FileName { name })
    }

    /// The bytes.
    pub(crate) fn bytes(&self) -> &[u8]
        ensures { result.now ≡ self.now }
    {
        self.name.bytes()
    }

    /// The name as a text.
    pub(crate) fn into_text(self) -> Text
        ensures same { result ≡ self }
        ensures utf8 { IsUtf8 result }
    {
        self.name
    }
}

/// A reader of the name of a file that is read.
#[derive(Drop)]
pub(crate) struct File;

impl Reader for File {
    type Item = FileName;

    ghost gives = { λ _. text rule.File };

    fn read(&self, alloc: Global, place: &Place, value: &Value) -> Result<FileName, KeyFault> {
        match text_in(alloc, TextRule::File, place, value) {
            Ok(name) => FileName::new(alloc, name),
            Err(fault) => Err(fault),
        }
    }
}
