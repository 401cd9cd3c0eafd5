// What values are compared by, and their canons taken into a pool.
ghost use Rattle.std.specs.Prelude.{◌≡◌, ◌≤◌, All, length, option_to_list};
ghost use Rattle.value_forms.specs.Canons.{IsReadable, canon_by, canon_of, initials_canon};
ghost use Rattle.link_base.specs.Standard.{value_seen, IsValid};
ghost use Rattle.standard_files.specs.Taking.{AreKnown, AreTextIds, IsIdOf, IsKnownField, canon_at, file_values, side_at, side_by_id, GoesOn, InLater, IsCompared, TakesTexts};
ghost use Rattle.standard_files.specs.Ready.{IsRowFor};
ghost use Rattle.standard_files.specs.Sides.{day_side, sides_of_row, both_texts, canons_of_row, file_texts};

use crate::known::Known;
use crate::texts::{TextIds, take_text};
use comparators::{IdTable, IdValue};
use link_base::{NoMemory, Row, StdFile, ValueRef};
use link_limits::MOST_FIELDS;
use std::alloc::Global;
use value_forms::{Canon, CompareKind, bytes_of, canon_text, compares_days, initials_text};
use value_pool::{Id, MaybeId, Pool, PoolFault};

/// Takes the canon of a value, and gives its id, `None` exactly where it has none.
#[inline(always)]
pub(crate) fn take_part(
    alloc: Global,
    pool: &mut Pool,
    canon: Canon,
    value: &ValueRef<'_>,
) -> Result<Option<Id>, PoolFault>
    requires { IsReadable canon (value_seen value.now) }
    ensures { TakesTexts pool.old pool.new (option_to_list (canon_by canon (value_seen value.now))) (IsIdOf pool.new.texts (canon_by canon (value_seen value.now))) result }
{
    match canon_text(canon, value) {
        None => Ok(None),
        Some(text) => Ok(Some(take_text(alloc, pool, bytes_of(&text))?)),
    }
}

// A day as it is.
fn day_of(value: &ValueRef<'_>) -> IdValue
    ensures { result ≡ day_side (value_seen value.now) }
{
    match value {
        ValueRef::Day(day) => IdValue::Day(*day),
        _ => IdValue::Absent,
    }
}

// What a value is compared by, whose canon has this id.
fn side_by_id(canon: Option<Id>) -> IdValue
    ensures { result ≡ side_by_id canon }
{
    match canon {
        None => IdValue::Absent,
        Some(id) => IdValue::Id(id),
    }
}

// Takes the initials of a word, and gives their id.
#[inline(never)]
fn take_initials(
    alloc: Global,
    pool: &mut Pool,
    value: &ValueRef<'_>,
) -> Result<Option<Id>, PoolFault>
    requires { IsValid (value_seen value.now) }
    ensures { TakesTexts pool.old pool.new (option_to_list (initials_canon (value_seen value.now))) (IsIdOf pool.new.texts (initials_canon (value_seen value.now))) result }
{
    let ValueRef::Word(text) = *value else {
        return Ok(None);
    };
    match initials_text(alloc, text) {
        Ok(initials) => Ok(Some(take_text(alloc, pool, initials.bytes())?)),
        Err(NoMemory) => Err(PoolFault::NoMemory),
    }
}

// Takes the text by which a kind compares a value, and gives its id.
#[tactic(auto, using(value_forms::proofs::ReadableLemmas::readable_valid))]
fn take_canon(
    alloc: Global,
    pool: &mut Pool,
    kind: CompareKind,
    value: &ValueRef<'_>,
) -> Result<Option<Id>, PoolFault>
    requires { IsValid (value_seen value.now) }
    ensures { TakesTexts pool.old pool.new (option_to_list (canon_of kind (value_seen value.now))) (IsIdOf pool.new.texts (canon_of kind (value_seen value.now))) result }
{
    match kind {
        CompareKind::Same(canon) => take_part(alloc, pool, canon, value),
        CompareKind::Initials => take_initials(alloc, pool, value),
        CompareKind::DaysWithin(_) | CompareKind::YearsWithin(_) => Ok(None),
    }
}

// Takes the canon of the value of a row in a field, which is not known, keeps it, and gives its id.
fn take_new(
    alloc: Global,
    pool: &mut Pool,
    kinds: &[CompareKind],
    known: &mut Known,
    field: u8,
    text: MaybeId,
    row: &Row<'_>,
) -> Result<Option<Id>, PoolFault>
    requires { IsKnownField pool.old.texts kinds.now known.old row.now field text }
    ensures { TakesTexts pool.old pool.new (option_to_list (canon_at kinds.now row.now field)) (λ canon. IsIdOf pool.new.texts (canon_at kinds.now row.now field) canon × AreKnown pool.new.texts kinds.now known.new) result }
{
    let kind = kinds[field as usize];
    let value = row.value(field as usize);
    let Some(canon) = take_canon(alloc, pool, kind, &value)? else {
        return Ok(None);
    };
    known.keep(kind, field, text, &value, canon);
    Ok(Some(canon))
}

// Takes the canon of the value of a row in a field, and gives what the value is compared by. A canon that is known is not looked
// for again.
fn take_side(
    alloc: Global,
    pool: &mut Pool,
    kinds: &[CompareKind],
    known: &mut Known,
    field: u8,
    text: MaybeId,
    row: &Row<'_>,
) -> Result<IdValue, PoolFault>
    requires { IsKnownField pool.old.texts kinds.now known.old row.now field text }
    ensures { TakesTexts pool.old pool.new (option_to_list (canon_at kinds.now row.now field)) (λ side. InLater pool.new.texts (λ final. side_at final kinds.now row.now field ≡ side) × AreKnown pool.new.texts kinds.now known.new) result }
{
    let kind = kinds[field as usize];
    if compares_days(kind) {
        return Ok(day_of(&row.value(field as usize)));
    }
    if let Some(canon) = known.find(kind, field, text, row) {
        return Ok(IdValue::Id(canon));
    }
    let canon = take_new(alloc, pool, kinds, known, field, text, row)?;
    Ok(side_by_id(canon))
}

// Takes the canons of a row, and appends what its values are compared by.
fn take_row(
    alloc: Global,
    pool: &mut Pool,
    kinds: &[CompareKind],
    known: &mut Known,
    row: &Row<'_>,
    ids: &[MaybeId],
    sides: &mut Vec<IdValue>,
) -> Result<(), PoolFault>
    requires few { length kinds.now ≤ MOST_FIELDS }
    requires as_many { length row.now ≡ length kinds.now }
    requires valid { All IsValid row.now }
    requires ids { AreTextIds pool.old.texts row.now ids.now }
    requires known { AreKnown pool.old.texts kinds.now known.old }
    ensures { TakesTexts pool.old pool.new (canons_of_row kinds.now row.now) (λ _. GoesOn pool.new.texts sides.old.items sides.new.items (length kinds.now) (λ final. sides_of_row final kinds.now row.now) × AreKnown pool.new.texts kinds.now known.new) result }
{
    for field in 0..kinds.len() {
        let side = take_side(alloc, pool, kinds, known, field as u8, ids[field], row)?;
        if sides.push(side).is_err() {
            return Err(PoolFault::NoMemory);
        }
    }
    Ok(())
}

// Takes the canons of a file, and gives what its rows are compared by.
fn take_file(
    alloc: Global,
    pool: &mut Pool,
    kinds: &[CompareKind],
    known: &mut Known,
    file: &StdFile,
    ids: &[MaybeId],
) -> Result<IdTable, PoolFault>
    requires few { length kinds.now ≤ MOST_FIELDS }
    requires rows { All (IsRowFor kinds.now) file.now }
    requires ids { AreTextIds pool.old.texts (file_values file.now) ids.now }
    requires known { AreKnown pool.old.texts kinds.now known.old }
    ensures { TakesTexts pool.old pool.new (file_texts (canons_of_row kinds.now) file.now) (λ table. IsCompared pool.new.texts kinds.now file.now table × AreKnown pool.new.texts kinds.now known.new) result }
{
    let room = (file.rows() as usize).saturating_mul(kinds.len());
    let Ok(mut sides) = Vec::with_capacity(alloc, room) else {
        return Err(PoolFault::NoMemory);
    };
    let mut left = ids;
    for at in 0..file.rows() {
        let (here, later) = left.split_at(kinds.len());
        take_row(alloc, pool, kinds, known, &file.row(at), here, &mut sides)?;
        left = later;
    }
    Ok(IdTable::of(kinds.len() as u8, file.rows(), sides))
}

/// Takes the canons of two files whose standard texts are taken, and gives what the rows of each are compared by.
pub(crate) fn take_canons(
    alloc: Global,
    pool: &mut Pool,
    kinds: &[CompareKind],
    a: &StdFile,
    b: &StdFile,
    ids: &TextIds,
) -> Result<(IdTable, IdTable), PoolFault>
    requires few { length kinds.now ≤ MOST_FIELDS }
    requires rows_a { All (IsRowFor kinds.now) a.now }
    requires rows_b { All (IsRowFor kinds.now) b.now }
    requires ids_a { AreTextIds pool.old.texts (file_values a.now) ids.now.a.items }
    requires ids_b { AreTextIds pool.old.texts (file_values b.now) ids.now.b.items }
    ensures { TakesTexts pool.old pool.new (both_texts (canons_of_row kinds.now) a.now b.now) (λ t. IsCompared pool.new.texts kinds.now a.now t.0 × IsCompared pool.new.texts kinds.now b.now t.1) result }
{
    let rows = a.rows().saturating_add(b.rows());
    let mut known = match Known::new(alloc, pool.len(), rows) {
        Ok(known) => known,
        Err(NoMemory) => return Err(PoolFault::NoMemory),
    };
    let a = take_file(alloc, pool, kinds, &mut known, a, &ids.a)?;
    let b = take_file(alloc, pool, kinds, &mut known, b, &ids.b)?;
    Ok((a, b))
}
