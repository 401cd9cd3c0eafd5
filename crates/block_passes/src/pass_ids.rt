// The ids of one pass, among those of all passes.
ghost use Rattle.std.specs.Prelude.{◌≡◌, ◌<◌, ◌*◌, ◌^◌, ◌-◌, [], IfOk, length, min, slice_index_or, take, ⊤};
ghost use Rattle.block_passes.specs.Keys.{parts_in};
ghost use Rattle.block_passes.specs.PassIds.{AreFirstIds, code_at, first_number, rows_in_pass};

use crate::coded_rows::CodedRows;
use crate::ids::push_id;
use crate::numbering::NO_NUMBER;
use link_base::NoMemory;
use std::alloc::Global;
use std::marker::Model;
use value_forms::Pass;
use value_pool::MaybeId;

/// How many parts passes have together, at most the most that a `usize` holds.
pub fn count_parts(passes: &[Pass]) -> usize
    ensures { result ≡ min (parts_in passes.now) (2 ^ 64 - 1) }
{
    let mut parts: usize = 0;
    for pass in passes {
        parts = parts.saturating_add(pass.parts().len());
    }
    parts
}

/// The ids of the parts of the keys of a file in one pass, read from those of all passes. Contracts see the list of the ids
/// of each row.
#[derive(Drop)]
pub(crate) struct PassIds<'k> {
    ids: &'k [MaybeId],
    width: usize,
    start: usize,
    parts: usize,
    rows: u32,
}

impl<'k> Model for PassIds<'k> {
    ghost use Rattle.std.specs.Prelude.{◌<◌, ◌≤◌, ◌+◌, ◌*◌, ℕ, List, Option, length};
    ghost use Rattle.block_passes.specs.PassIds.{rows_in_pass};

    ghost Value = { List (List (Option ℕ)) };

    ghost view = { λ p. rows_in_pass p.ids.now p.width p.start p.parts p.rows };

    ghost invariant = { λ p. (at : ℕ) → at < p.rows → at * p.width + p.start + p.parts ≤ length p.ids.now };
}

impl<'k> PassIds<'k> {
    /// The ids of the pass `at`.
    pub(crate) fn of(ids: &'k [MaybeId], passes: &[Pass], at: usize, rows: u32) -> PassIds<'k>
        requires at { at < length passes.now }
        requires ids { length ids.now ≡ rows * parts_in passes.now }
        ensures { result ≡ rows_in_pass ids.now (parts_in passes.now) (parts_in (take at passes.now)) (length (slice_index_or passes.now at [])) rows }
    {
        // As much as a list can hold bounds the ids of a row.
        let _long = ids.len();
        PassIds {
            ids,
            width: count_parts(passes),
            start: count_parts(&passes[..at]),
            parts: passes[at].parts().len(),
            rows,
        }
    }

    /// The ids of a row.
    pub(crate) fn row(&self, at: u32) -> &[MaybeId]
        requires { at < length self.now }
        ensures { result.now ≡ slice_index_or self.now at [] }
    {
        let start = at as usize * self.width + self.start;
        &self.ids[start..start + self.parts]
    }
}

impl<'k> CodedRows for PassIds<'k> {
    ghost count = { λ rows. length rows };

    ghost code_of = { λ rows. code_at rows };

    ghost are_ready = { λ rows. ⊤ };

    fn rows(&self) -> u32 {
        self.rows
    }

    fn put_code(&self, at: u32, code: &mut Vec<u8>) -> Result<bool, NoMemory> {
        code.clear();
        for id in self.row(at) {
            match id.get() {
                None => return Ok(false),
                Some(id) => push_id(code, id)?,
            }
        }
        Ok(true)
    }
}

// The place of the first of some ids.
fn first_number(ids: &[MaybeId]) -> u32
    ensures { result ≡ first_number ids.now }
{
    let Some(first) = ids.first() else {
        return NO_NUMBER;
    };
    match first.get() {
        None => NO_NUMBER,
        Some(id) => id.place(),
    }
}

/// The places of the first ids, row by row.
pub(crate) fn part_numbers(alloc: Global, keys: &PassIds<'_>) -> Result<Vec<u32>, NoMemory>
    ensures few { IfOk result (λ numbers. length numbers.items < 2 ^ 32) }
    ensures numbers { IfOk result (λ numbers. AreFirstIds keys.now (length keys.now) numbers.items) }
{
    let mut numbers = Vec::with_capacity(alloc, keys.rows() as usize)?;
    for at in 0..keys.rows() {
        numbers.push(first_number(keys.row(at)))?;
    }
    Ok(numbers)
}
