// The reviewed sample of the made input.
ghost use Rattle.std.specs.Prelude.{◌≡◌, ◌≤◌, ◌<◌, ◌++◌, IfOk, OnOk, map};
ghost use Rattle.std.specs.List.{range_with_len};
ghost use Rattle.csv.specs.Writing.{default_writer, row_text};
ghost use Rattle.link_limits.specs.declared.TheConstants.{MOST_ROWS};
ghost use Rattle.workload.specs.Made.{rows_text, made_row, paired_row, text_of_sample};

use crate::files::id_of;
use csv_rows::push_row;
use link_base::{NoMemory, Text};
use std::alloc::Global;

// The most pairs of a status.
const MOST_OF_STATUS: u32 = 200;

// Appends the row of a pair.
fn push_pair(
    alloc: Global,
    text: &mut Vec<u8>,
    a: u32,
    b: u32,
    status: &[u8],
) -> Result<(), NoMemory>
    ensures { OnOk result (text.new.items ≡ text.old.items ++ row_text default_writer (made_row a b status.now)) }
{
    let a = id_of(alloc, b'A', a)?;
    let b = id_of(alloc, b'B', b)?;
    push_row(text, &[&a, &b, status])
}

// Appends the rows of pairs of a status: each record with the copy of that so many rows on.
fn push_pairs(
    alloc: Global,
    text: &mut Vec<u8>,
    count: u32,
    on: u32,
    status: &[u8],
) -> Result<(), NoMemory>
    requires count { count ≤ MOST_ROWS }
    requires on { on ≤ 1 }
    ensures { OnOk result (text.new.items ≡ text.old.items ++ rows_text (map (paired_row on status.now) (range_with_len 0 count))) }
{
    for row in 0..count {
        push_pair(alloc, text, row, row + on, status)?;
    }
    Ok(())
}

/// The text of the sample.
#[tactic(auto, using(crate::proofs::Lemmas::sample_header_text))]
pub fn sample_text(alloc: Global, rows: u32) -> Result<Text, NoMemory>
    requires { 1 ≤ rows }
    ensures { IfOk result (λ text. text ≡ text_of_sample rows) }
{
    let mut text = Vec::new(alloc);
    text.extend_from_slice(b"id_a,id_b,status\n")?;
    push_pairs(alloc, &mut text, rows.min(MOST_OF_STATUS), 0, b"matched")?;
    push_pairs(
        alloc,
        &mut text,
        (rows - 1).min(MOST_OF_STATUS),
        1,
        b"unmatched",
    )?;
    Ok(Text::of(text))
}
