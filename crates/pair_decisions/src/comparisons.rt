// The comparators of a plan's fields.
ghost use Rattle.std.specs.Prelude.{◌≡◌, ◌<◌, ◌≤◌, List, All, IfOk, IfSome, length, slice_index_or};
ghost use Rattle.comparators.specs.Fields.{IsFieldSide, field_of};
ghost use Rattle.comparators.specs.declared.ids.IdValue.{IdValue as SideValue};
ghost use Rattle.comparators.specs.declared.ids.IdValue.TheVariants as id;
ghost use Rattle.pair_decisions.specs.Comparators.{answers_of, comparator_by, id_counts, AreComparatorsOver, AreSidesOf, IsOfTexts};
ghost use Rattle.link_plan.specs.Ranges.{IsRareNumber, KeepsRanges};

use crate::id_counts::counts_in;
use comparators::{FieldById, IdTable};
use link_base::NoMemory;
use link_limits::MOST_ROWS;
use link_plan::{FieldPlan, Plan};
use std::alloc::Global;

// The comparator of the field at a place.
fn comparison_at(
    alloc: Global,
    field: &FieldPlan,
    at: usize,
    texts: u32,
    a: &IdTable,
    b: &IdTable,
) -> Result<FieldById, NoMemory>
    requires rare { IfSome field.now.rare (IsRareNumber field.now.compare) }
    requires few_a { length a.now.rows ≤ MOST_ROWS }
    requires few_b { length b.now.rows ≤ MOST_ROWS }
    requires width_a { All (λ (row : List SideValue). at < length row) a.now.rows }
    requires width_b { All (λ (row : List SideValue). at < length row) b.now.rows }
    requires of_texts_a { All (λ (row : List SideValue). IsOfTexts texts (slice_index_or row at id.Absent)) a.now.rows }
    requires of_texts_b { All (λ (row : List SideValue). IsOfTexts texts (slice_index_or row at id.Absent)) b.now.rows }
    ensures answers { IfOk result (λ c. answers_of c ≡ comparator_by field.now.compare (id_counts texts a.now.rows b.now.rows at) field.now.rare) }
    ensures valid { IfOk result (λ c. (side : SideValue) → IsFieldSide (field_of field.now.compare) side → IsOfTexts texts side → IsFieldSide c side) }
{
    match field.rare {
        Some(most) => Ok(FieldById::Rare(most, counts_in(alloc, texts, at, a, b)?)),
        None => Ok(FieldById::of(field.compare)),
    }
}

/// The comparators of a plan's fields over the sides of two files, whose ids name `texts` texts: that of the field's
/// kind, or where the field has a rare number the one that answers `Rare` where at most so many rows of both files
/// together have the value (Newcombe et al. 1959).
pub fn comparisons_of(
    alloc: Global,
    plan: &Plan,
    texts: u32,
    sides_a: &IdTable,
    sides_b: &IdTable,
) -> Result<Vec<FieldById>, NoMemory>
    requires ranges { KeepsRanges plan.now }
    requires few_a { length sides_a.now.rows ≤ MOST_ROWS }
    requires few_b { length sides_b.now.rows ≤ MOST_ROWS }
    requires sides_a { All (AreSidesOf texts plan.now.fields) sides_a.now.rows }
    requires sides_b { All (AreSidesOf texts plan.now.fields) sides_b.now.rows }
    ensures { IfOk result (λ all. AreComparatorsOver texts plan.now.fields sides_a.now.rows sides_b.now.rows all.items) }
{
    let fields = plan.fields.fields();
    let mut all = Vec::new(alloc);
    for at in 0..fields.len() {
        all.push(comparison_at(alloc, &fields[at], at, texts, sides_a, sides_b)?)?;
    }
    Ok(all)
}
