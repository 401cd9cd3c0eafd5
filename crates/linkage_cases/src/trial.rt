// A command over what names hold.
use crate::Stop;
use crate::files::{Files, push_cell};
use link_base::push_number;
use link_outside::{Failure, MemorySink, MemoryStore};
use link_shell::linkage;
use std::alloc::Global;

/// Which call of the store and of each of the two streams fails, counted from 1; no call has the number 0.
#[derive(Clone, Copy)]
pub(crate) struct Failures {
    pub(crate) store: Failure,
    pub(crate) out: u32,
    pub(crate) err: u32,
}

/// Runs a command over a store that holds what the names hold, and appends how it ends: the status, what it printed and told,
/// and each name that holds other bytes than before, with these.
pub(crate) fn push_ending(
    alloc: Global,
    row: &mut Vec<u8>,
    files: &mut Files,
    words: &[String],
    fails: Failures,
) -> Result<(), Stop> {
    let mut store = MemoryStore::new(alloc, &[fails.store])?;
    files.hold_in(alloc, &mut store)?;
    let mut out = MemorySink::new(alloc, &[fails.out])?;
    let mut err = MemorySink::new(alloc, &[fails.err])?;
    let status = linkage(alloc, words, &mut store, &mut out, &mut err);
    push_number(alloc, row, u64::from(status))?;
    push_cell(row, out.bytes())?;
    push_cell(row, err.bytes())?;
    files.take_from(alloc, row, &store)
}
