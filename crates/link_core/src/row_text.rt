// The text of pairs of rows.
ghost use Rattle.std.specs.Prelude.{◌≡◌, ◌++◌, IfOk, OnOk, decimal};
ghost use Rattle.link_core.specs.Pairs.{pair_line, pairs_text};

use itoa::{Buffer, write_digits};
use link_base::{NoMemory, PairAt};
use std::alloc::Global;

// How many bytes a line has mostly, for which room is made beforehand: two numbers of five digits, a comma and the end.
const USUAL_LINE: usize = 12;
// How many bytes a line has at most: two numbers of ten digits, a comma and the end.
const MOST_LINE: usize = 22;
// Room for a line, and behind each place in it for as many bytes.
const LINE_ROOM: usize = 44;

// Appends the number of a row in decimal digits.
pub(crate) fn push_row(text: &mut Vec<u8>, row: u64) -> Result<(), NoMemory>
    ensures { OnOk result (text.new.items ≡ text.old.items ++ decimal row) }
{
    let mut digits = Buffer::new();
    text.extend_from_slice(digits.format(row).as_bytes())?;
    Ok(())
}

// Appends the line of a pair, which is made from its end.
#[inline(always)]
fn push_pair(text: &mut Vec<u8>, pair: PairAt) -> Result<(), NoMemory>
    ensures { OnOk result (text.new.items ≡ text.old.items ++ pair_line pair) }
{
    let mut line = [b'\n'; LINE_ROOM];
    let comma = write_digits(u64::from(pair.b) + 1, &mut line, MOST_LINE - 1) - 1;
    line[comma] = b',';
    let start = write_digits(u64::from(pair.a) + 1, &mut line, comma);
    let end = text.len() + (MOST_LINE - start);
    text.extend_from_slice(&line[start..start + MOST_LINE])?;
    text.truncate(end);
    Ok(())
}

// The header, and a line per pair with the rows of both.
pub(crate) fn rows_text(alloc: Global, pairs: &[PairAt]) -> Result<Vec<u8>, NoMemory>
    ensures { IfOk result (λ text. text.items ≡ pairs_text pairs.now) }
{
    let mut text = Vec::with_capacity(
        alloc,
        pairs
            .len()
            .saturating_mul(USUAL_LINE)
            .saturating_add(MOST_LINE),
    )?;
    text.extend_from_slice(b"row_a,row_b\n")?;
    for pair in pairs {
        push_pair(&mut text, *pair)?;
    }
    Ok(text)
}
