// The pairs of rows with the same field in one column.
ghost use Rattle.link_base.specs.Fault.{Gives, IsAnswer};
ghost use Rattle.link_core.specs.Pairs.{items_of, pairs_of_files, rows_of_pairs};

use crate::column_rows::{list_pairs, match_rows};
use crate::row_text::rows_text;
use link_base::{Fault, PairAt, Text};
use std::alloc::Global;

// The pairs of a column of two files.
fn compare_files(alloc: Global, column: &str, a: Text, b: Text) -> Result<Vec<PairAt>, Fault>
    ensures answer { Gives items_of (pairs_of_files column.now a b) result }
{
    match match_rows(alloc, column, a, b) {
        Ok(rows) => list_pairs(alloc, &rows),
        Err(fault) => Err(fault),
    }
}

/// The rows of the pairs of a column of two comma files: the header `row_a,row_b`, and a line for each pair of rows whose
/// fields in the column are equal byte for byte and not empty, rising, with the numbers of both rows from 1 on. The first
/// fault is that of A, then that of B, and then `TooManyPairs` exactly where there are more than 2,000,000 pairs.
pub fn pair_rows(alloc: Global, column: &str, a: Text, b: Text) -> Result<Text, Fault>
    ensures answer { IsAnswer (rows_of_pairs column.now a b) result }
{
    match compare_files(alloc, column, a, b) {
        Ok(pairs) => Ok(Text::of(rows_text(alloc, &pairs)?)),
        Err(fault) => Err(fault),
    }
}
