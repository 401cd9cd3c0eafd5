// The parts of the keys of blocking passes taken into a pool, and their ids.
ghost use Rattle.std.specs.Prelude.{◌≡◌, ◌≤◌, ◌<◌, ◌++◌, [], All, IfSome, IsTrue, List, Some, false, length, option_to_list, ℕ};
ghost use Rattle.block_passes.specs.Keys.{ids_in_pass, ids_of_row, key_ids, part_id, IsPartReadable, part_key};
ghost use Rattle.comparators.specs.Fields.{id_in};
ghost use Rattle.value_forms.specs.declared.passes.Part.{Part as KeyPart};
ghost use Rattle.link_base.specs.declared.standard.Value.{Value as FieldValue};
ghost use Rattle.standard_files.specs.Taking.{IsIdOf, IsKnownFile, IsKnownRow, InLater, TakesTexts};
ghost use Rattle.standard_files.specs.Ready.{AreInRange, IsRowFor};
ghost use Rattle.standard_files.specs.Sides.{both_texts, file_texts, parts_in_pass, parts_of_row, standard_text};
ghost use Rattle.value_forms.specs.Canons.{canon_of, compares_days, canon_by};

use crate::canons::take_part;
use crate::texts::{TextIds, room_for_ids};
use block_passes::count_parts;
use comparators::{IdTable, IdValue};
use link_base::{NoMemory, Row, Sides, StdFile};
use std::alloc::Global;
use value_forms::{Canon, CompareKind, Part, Pass, PassList};
use value_pool::{Id, MaybeId, Pool, PoolFault};

// The id of the part that a word makes by its standard text, if the part is this text.
fn id_of_text(key: Canon, text: Option<Id>) -> Option<Id>
    ensures { IfSome result (λ id. (held : List (List ℕ)) (v : FieldValue) → IsIdOf held (standard_text v) text → IsIdOf held (canon_by key v) (Some id)) }
{
    match key {
        Canon::Whole => text,
        _ => None,
    }
}

// Whether the part that a value makes is its canon.
fn is_canon(key: Canon, kind: CompareKind) -> bool
    ensures canon { IsTrue result → (v : FieldValue) → canon_by key v ≡ canon_of kind v }
    ensures by_id { IsTrue result → compares_days kind ≡ false }
{
    match kind {
        CompareKind::Same(canon) => canon == key,
        _ => false,
    }
}

// The id by which a value is compared, if it is by one.
fn id_of_side(side: IdValue) -> Option<Id>
    ensures { result ≡ id_in side }
{
    match side {
        IdValue::Id(id) => Some(id),
        _ => None,
    }
}

// Takes the part of a row, and gives its id. One that was taken with the standard texts or the canons is not looked for again.
fn take_row_part(
    alloc: Global,
    pool: &mut Pool,
    kinds: &[CompareKind],
    part: Part,
    row: &Row<'_>,
    texts: &[MaybeId],
    sides: &[IdValue],
) -> Result<Option<Id>, PoolFault>
    requires within { part.field < length kinds.now }
    requires readable { IsPartReadable row.now part }
    requires known { IsKnownRow pool.old.texts kinds.now row.now texts.now sides.now }
    ensures { TakesTexts pool.old pool.new (option_to_list (part_key row.now part)) (λ id. InLater pool.new.texts (λ final. part_id final row.now part ≡ id)) result }
{
    let field = part.field as usize;
    if let Some(text) = id_of_text(part.key, texts[field].get()) {
        return Ok(Some(text));
    }
    if is_canon(part.key, kinds[field]) {
        return Ok(id_of_side(sides[field]));
    }
    take_part(alloc, pool, part.key, &row.value(field))
}

// Takes the parts of the key of a row in a pass, also where some other part is missing, and appends their ids.
fn take_key(
    alloc: Global,
    pool: &mut Pool,
    kinds: &[CompareKind],
    pass: &Pass,
    row: &Row<'_>,
    texts: &[MaybeId],
    sides: &[IdValue],
    ids: &mut Vec<MaybeId>,
) -> Result<(), PoolFault>
    requires in_range { All (λ (p : KeyPart). p.field < length kinds.now) pass.now }
    requires known { IsKnownRow pool.old.texts kinds.now row.now texts.now sides.now }
    ensures { TakesTexts pool.old pool.new (parts_in_pass row.now pass.now) (λ _. InLater pool.new.texts (λ final. ids.old.items ++ ids_in_pass final row.now pass.now ≡ ids.new.items)) result }
{
    for part in pass.parts() {
        let id = take_row_part(alloc, pool, kinds, *part, row, texts, sides)?;
        if ids.push(MaybeId::of(id)).is_err() {
            return Err(PoolFault::NoMemory);
        }
    }
    Ok(())
}

// Takes the parts of the keys of a row, and appends their ids.
fn take_row(
    alloc: Global,
    pool: &mut Pool,
    kinds: &[CompareKind],
    passes: &PassList,
    row: &Row<'_>,
    texts: &[MaybeId],
    sides: &[IdValue],
    ids: &mut Vec<MaybeId>,
) -> Result<(), PoolFault>
    requires in_range { AreInRange (length kinds.now) passes.now }
    requires known { IsKnownRow pool.old.texts kinds.now row.now texts.now sides.now }
    ensures { TakesTexts pool.old pool.new (parts_of_row passes.now row.now) (λ _. InLater pool.new.texts (λ final. ids.old.items ++ ids_of_row final passes.now row.now ≡ ids.new.items)) result }
{
    for pass in passes.passes() {
        take_key(alloc, pool, kinds, pass, row, texts, sides, ids)?;
    }
    Ok(())
}

// Takes the parts of the keys of a file, and gives their ids.
fn take_file(
    alloc: Global,
    pool: &mut Pool,
    kinds: &[CompareKind],
    passes: &PassList,
    file: &StdFile,
    texts: &[MaybeId],
    table: &IdTable,
) -> Result<Vec<MaybeId>, PoolFault>
    requires parts { AreInRange (length kinds.now) passes.now }
    requires rows { All (IsRowFor kinds.now) file.now }
    requires known { IsKnownFile pool.old.texts kinds.now file.now texts.now table.now.rows }
    ensures { TakesTexts pool.old pool.new (file_texts (parts_of_row passes.now) file.now) (λ ids. InLater pool.new.texts (λ final. key_ids final passes.now file.now ≡ ids.items)) result }
{
    let mut ids = match room_for_ids(alloc, file.rows(), count_parts(passes.passes())) {
        Ok(ids) => ids,
        Err(NoMemory) => return Err(PoolFault::NoMemory),
    };
    let mut left = texts;
    for at in 0..file.rows() {
        pool.are_distinct();
        let (here, later) = left.split_at(kinds.len());
        let sides = table.sides(at);
        take_row(
            alloc,
            pool,
            kinds,
            passes,
            &file.row(at),
            here,
            sides,
            &mut ids,
        )?;
        left = later;
    }
    Ok(ids)
}

/// Takes the parts of the keys of two files, whose standard texts and canons are taken, and gives their ids. The ids of the
/// texts of a file are given back as soon as its keys are taken.
pub(crate) fn take_keys(
    alloc: Global,
    pool: &mut Pool,
    kinds: &[CompareKind],
    passes: &PassList,
    a: &StdFile,
    b: &StdFile,
    texts: TextIds,
    tables: &(IdTable, IdTable),
) -> Result<TextIds, PoolFault>
    requires parts { AreInRange (length kinds.now) passes.now }
    requires rows_a { All (IsRowFor kinds.now) a.now }
    requires rows_b { All (IsRowFor kinds.now) b.now }
    requires known_a { IsKnownFile pool.old.texts kinds.now a.now texts.a.items tables.now.0.rows }
    requires known_b { IsKnownFile pool.old.texts kinds.now b.now texts.b.items tables.now.1.rows }
    ensures { TakesTexts pool.old pool.new (both_texts (parts_of_row passes.now) a.now b.now) (λ ids. InLater pool.new.texts (λ final. key_ids final passes.now a.now ≡ ids.a.items) × InLater pool.new.texts (λ final. key_ids final passes.now b.now ≡ ids.b.items)) result }
{
    let TextIds {
        a: texts_a,
        b: texts_b,
    } = texts;
    let ids_a = take_file(alloc, pool, kinds, passes, a, &texts_a, &tables.0)?;
    drop(texts_a);
    let ids_b = take_file(alloc, pool, kinds, passes, b, &texts_b, &tables.1)?;
    Ok(TextIds { a: ids_a, b: ids_b })
}
