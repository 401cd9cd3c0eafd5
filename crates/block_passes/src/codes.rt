// The code of a key: its texts as one list of bytes.
ghost use Rattle.std.specs.Prelude.{◌≡◌, ◌++◌, OnOk, length};
ghost use Rattle.block_passes.specs.CodedRows.{code_of_row};
ghost use Rattle.block_passes.specs.Numbering.{coded_text, has_marked, is_marked, marked};
ghost use Rattle.block_passes.specs.Keys.{AreReady};

use crate::coded_rows::CodedRows;
use crate::keys::part_text;
use link_base::{NoMemory, StdFile};
use value_forms::{Pass, bytes_of};

// Whether a byte is marked.
fn is_marked(byte: u8) -> bool
    ensures { result ≡ is_marked byte }
{
    byte <= 1
}

// Whether a text has a byte that is marked.
fn has_marked(text: &[u8]) -> bool
    ensures { result ≡ has_marked text.now }
{
    text.iter().any(|byte| is_marked(*byte))
}

fn push_byte(code: &mut Vec<u8>, byte: u8) -> Result<(), NoMemory>
    ensures { OnOk result (code.new.items ≡ code.old.items ++ marked byte) }
{
    if is_marked(byte) {
        code.push(1)?;
        code.push(byte)?;
        return Ok(());
    }
    code.push(byte)?;
    Ok(())
}

// Appends the code of a text byte by byte.
fn push_marked(code: &mut Vec<u8>, text: &[u8]) -> Result<(), NoMemory>
    ensures { OnOk result (code.new.items ≡ code.old.items ++ coded_text text.now) }
{
    for byte in text {
        push_byte(code, *byte)?;
    }
    code.push(0)?;
    Ok(())
}

/// Appends the code of a text. One without a byte that is marked is copied whole.
pub(crate) fn push_text(code: &mut Vec<u8>, text: &[u8]) -> Result<(), NoMemory>
    ensures { OnOk result (code.new.items ≡ code.old.items ++ coded_text text.now) }
{
    if has_marked(text) {
        return push_marked(code, text);
    }
    code.reserve(text.len().saturating_add(1))?;
    code.extend_from_slice(text)?;
    code.push(0)?;
    Ok(())
}

/// The keys of the rows of a file in a pass.
#[derive(Drop)]
pub(crate) struct FileKeys<'f> {
    pub(crate) file: &'f StdFile,
    pub(crate) pass: &'f Pass,
}

impl<'f> CodedRows for FileKeys<'f> {
    ghost count = { λ k. length k.file.now };

    ghost code_of = { λ k. code_of_row k.pass.now k.file.now };

    ghost are_ready = { λ k. AreReady k.pass.now k.file.now };

    fn rows(&self) -> u32 {
        self.file.rows()
    }

    fn put_code(&self, at: u32, code: &mut Vec<u8>) -> Result<bool, NoMemory> {
        let row = self.file.row(at);
        code.clear();
        for part in self.pass.parts() {
            match part_text(&row, *part) {
                None => return Ok(false),
                Some(text) => push_text(code, bytes_of(&text))?,
            }
        }
        Ok(true)
    }
}
