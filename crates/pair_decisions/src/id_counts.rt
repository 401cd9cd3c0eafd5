// How many rows have an id in a field.
ghost use Rattle.std.specs.Prelude.{◌≡◌, ◌+◌, ◌<◌, ◌≤◌, ◌^◌, ℕ, List, All, IfOk, length, filter, slice_index, slice_index_or, if◌then◌else◌};
ghost use Rattle.comparators.specs.declared.ids.IdValue.{IdValue as SideValue};
ghost use Rattle.comparators.specs.declared.ids.IdValue.TheVariants as id;
ghost use Rattle.pair_decisions.specs.Comparators.{AddsCounts, has_id, id_counts, is_id, IsOfTexts};

use comparators::{IdTable, IdValue};
use link_base::{NoMemory, Sides};
use link_limits::MOST_ROWS;
use std::alloc::Global;

// Counts a side, where it is an id.
fn count_side(counts: &mut [u32], side: &IdValue)
    requires of_texts { IsOfTexts (length counts.old) side.now }
    requires room { (k : ℕ) → k < length counts.old → slice_index counts.old k + 1 < 2 ^ 32 }
    ensures { AddsCounts (λ k. if is_id k side.now then 1 else 0) counts.old counts.new }
{
    if let IdValue::Id(id) = side {
        counts[id.place() as usize] += 1;
    }
}

// Counts the sides of all rows in a field.
fn count_rows(counts: &mut [u32], table: &IdTable, field: usize)
    requires width { All (λ (row : List SideValue). field < length row) table.now.rows }
    requires of_texts { All (λ (row : List SideValue). IsOfTexts (length counts.old) (slice_index_or row field id.Absent)) table.now.rows }
    requires room { (k : ℕ) → k < length counts.old → slice_index counts.old k + length table.now.rows < 2 ^ 32 }
    ensures { AddsCounts (λ k. length (filter (has_id field k) table.now.rows)) counts.old counts.new }
{
    for at in 0..table.count() {
        let sides = table.sides(at);
        count_side(counts, &sides[field]);
    }
}

/// How many rows of both tables, together, have each of so many ids in a field.
pub(crate) fn counts_in(
    alloc: Global,
    texts: u32,
    field: usize,
    a: &IdTable,
    b: &IdTable,
) -> Result<Vec<u32>, NoMemory>
    requires few_a { length a.now.rows ≤ MOST_ROWS }
    requires few_b { length b.now.rows ≤ MOST_ROWS }
    requires width_a { All (λ (row : List SideValue). field < length row) a.now.rows }
    requires width_b { All (λ (row : List SideValue). field < length row) b.now.rows }
    requires of_texts_a { All (λ (row : List SideValue). IsOfTexts texts (slice_index_or row field id.Absent)) a.now.rows }
    requires of_texts_b { All (λ (row : List SideValue). IsOfTexts texts (slice_index_or row field id.Absent)) b.now.rows }
    ensures { IfOk result (λ counts. counts.items ≡ id_counts texts a.now.rows b.now.rows field) }
{
    let mut counts = vec![in alloc; 0; texts as usize]?;
    let slots = counts.as_mut_slice();
    count_rows(slots, a, field);
    count_rows(slots, b, field);
    Ok(counts)
}
