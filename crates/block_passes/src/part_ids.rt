// The ids of the parts of the keys of a file.
ghost use Rattle.std.specs.Prelude.{◌≡◌, ◌<◌, ◌++◌, [], ℕ, length, slice_index_or, IfOk, OnOk};
ghost use Rattle.block_passes.specs.Ids.{AreHeld, AreKeysHeld};
ghost use Rattle.block_passes.specs.Keys.{AreAllReady, ids_in_pass, ids_of_row, key_ids, AreReadable, InRange};

use crate::ids::part_id;
use crate::pass_ids::count_parts;
use link_base::{NoMemory, Row, StdFile};
use std::alloc::Global;
use value_forms::{Pass, PassList};
use value_pool::{MaybeId, Pool};

/// A pool with the ids of the parts of the keys of two files, each list as `key_ids` gives it.
#[derive(Drop)]
pub struct KeyedPool<'k> {
    pub pool: &'k Pool,
    pub a: &'k [MaybeId],
    pub b: &'k [MaybeId],
}

// Appends the ids of the parts of a row in a pass.
fn push_pass(
    ids: &mut Vec<MaybeId>,
    row: &Row<'_>,
    pass: &Pass,
    pool: &Pool,
) -> Result<(), NoMemory>
    requires in_range { InRange row.now pass.now }
    requires readable { AreReadable row.now pass.now }
    requires held { AreHeld pool.now.texts row.now pass.now }
    ensures { OnOk result (ids.new.items ≡ ids.old.items ++ ids_in_pass pool.now.texts row.now pass.now) }
{
    for part in pass.parts() {
        ids.push(MaybeId::of(part_id(row, *part, pool)))?;
    }
    Ok(())
}

// Appends the ids of the parts of a row in all passes.
fn push_row(
    ids: &mut Vec<MaybeId>,
    row: &Row<'_>,
    passes: &[Pass],
    pool: &Pool,
) -> Result<(), NoMemory>
    requires in_range { (k : ℕ) → k < length passes.now → InRange row.now (slice_index_or passes.now k []) }
    requires readable { (k : ℕ) → k < length passes.now → AreReadable row.now (slice_index_or passes.now k []) }
    requires held { (k : ℕ) → k < length passes.now → AreHeld pool.now.texts row.now (slice_index_or passes.now k []) }
    ensures { OnOk result (ids.new.items ≡ ids.old.items ++ ids_of_row pool.now.texts passes.now row.now) }
{
    for pass in passes {
        push_pass(ids, row, pass, pool)?;
    }
    Ok(())
}

/// The ids of the parts of the keys of a file in a pool that holds them: for each record, for each pass, for each part, and
/// `None` where the part is missing.
pub fn key_ids(
    alloc: Global,
    file: &StdFile,
    passes: &PassList,
    pool: &Pool,
) -> Result<Vec<MaybeId>, NoMemory>
    requires ready { AreAllReady passes.now file.now }
    requires held { AreKeysHeld pool.now.texts passes.now file.now }
    ensures { IfOk result (λ ids. ids.items ≡ key_ids pool.now.texts passes.now file.now) }
{
    let passes = passes.passes();
    let room = (file.rows() as usize).saturating_mul(count_parts(passes));
    let mut ids = Vec::with_capacity(alloc, room)?;
    for at in 0..file.rows() {
        push_row(&mut ids, &file.row(at), passes, pool)?;
    }
    Ok(ids)
}
