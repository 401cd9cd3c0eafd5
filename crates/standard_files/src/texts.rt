// Texts taken into a pool.
ghost use Rattle.std.specs.Prelude.{◌≡◌, ◌≤◌, ◌++◌, ◌∷◌, ◌*◌, ◌-◌, ◌^◌, [], IfOk, List, Some, min, option_to_list, slice_get, vec_capacity};
ghost use Rattle.link_base.specs.Standard.{value_seen};
ghost use Rattle.link_base.specs.declared.standard.Value.{Value as FieldValue};
ghost use Rattle.standard_files.specs.Taking.{AreTextIds, IsIdOf, file_values, TakesTexts};
ghost use Rattle.standard_files.specs.Sides.{both_texts, file_texts, standard_text, texts_of_row};

use link_base::{NoMemory, Row, StdFile, ValueRef};
use std::alloc::Global;
use value_pool::{Id, MaybeId, Pool, PoolFault};

/// The ids of texts of two files, row by row, `None` where there is none: of the standard texts, or of the parts of the keys, pass by
/// pass.
#[derive(Drop)]
pub(crate) struct TextIds {
    pub(crate) a: Vec<MaybeId>,
    pub(crate) b: Vec<MaybeId>,
}

/// Takes a text.
#[inline(always)]
pub(crate) fn take_text(alloc: Global, pool: &mut Pool, text: &[u8]) -> Result<Id, PoolFault>
    ensures { TakesTexts pool.old pool.new (text.now ∷ []) (λ id. slice_get pool.new.texts id ≡ Some text.now) result }
{
    pool.are_distinct();
    pool.intern(alloc, text)
}

// Takes the standard text of a value.
fn take_value(alloc: Global, pool: &mut Pool, value: &ValueRef<'_>) -> Result<Option<Id>, PoolFault>
    ensures { TakesTexts pool.old pool.new (option_to_list (standard_text (value_seen value.now))) (IsIdOf pool.new.texts (standard_text (value_seen value.now))) result }
{
    match value {
        ValueRef::Word(text) => Ok(Some(take_text(alloc, pool, *text)?)),
        _ => Ok(None),
    }
}

// Takes the standard texts of a row, and appends their ids.
fn take_row(
    alloc: Global,
    pool: &mut Pool,
    row: &Row<'_>,
    ids: &mut Vec<MaybeId>,
) -> Result<(), PoolFault>
    ensures { TakesTexts pool.old pool.new (texts_of_row row.now) (λ _. (before : List FieldValue) → AreTextIds pool.old.texts before ids.old.items → AreTextIds pool.new.texts (before ++ row.now) ids.new.items) result }
{
    for at in 0..row.len() {
        let id = take_value(alloc, pool, &row.value(at))?;
        if ids.push(MaybeId::of(id)).is_err() {
            return Err(PoolFault::NoMemory);
        }
    }
    Ok(())
}

/// Room for so many ids of each of so many rows.
pub(crate) fn room_for_ids(alloc: Global, rows: u32, each: usize) -> Result<Vec<MaybeId>, NoMemory>
    ensures none { IfOk result (λ ids. ids.items ≡ []) }
    ensures room { IfOk result (λ ids. min (rows * each) (2 ^ 64 - 1) ≤ vec_capacity ids) }
{
    Ok(Vec::with_capacity(alloc, (rows as usize).saturating_mul(each))?)
}

// Takes the standard texts of a file, and gives their ids.
fn take_file(alloc: Global, pool: &mut Pool, file: &StdFile) -> Result<Vec<MaybeId>, PoolFault>
    ensures { TakesTexts pool.old pool.new (file_texts texts_of_row file.now) (λ ids. AreTextIds pool.new.texts (file_values file.now) ids.items) result }
{
    let rows = file.rows();
    let width = if rows == 0 { 0 } else { file.row(0).len() };
    let mut ids = match room_for_ids(alloc, rows, width) {
        Ok(ids) => ids,
        Err(NoMemory) => return Err(PoolFault::NoMemory),
    };
    for at in 0..rows {
        take_row(alloc, pool, &file.row(at), &mut ids)?;
    }
    Ok(ids)
}

/// Takes the standard texts of two files, and gives their ids.
pub(crate) fn take_texts(
    alloc: Global,
    pool: &mut Pool,
    a: &StdFile,
    b: &StdFile,
) -> Result<TextIds, PoolFault>
    ensures { TakesTexts pool.old pool.new (both_texts texts_of_row a.now b.now) (λ ids. AreTextIds pool.new.texts (file_values a.now) ids.a.items × AreTextIds pool.new.texts (file_values b.now) ids.b.items) result }
{
    let ids_a = take_file(alloc, pool, a)?;
    let ids_b = take_file(alloc, pool, b)?;
    Ok(TextIds { a: ids_a, b: ids_b })
}
