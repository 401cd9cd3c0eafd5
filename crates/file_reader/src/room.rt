// Room for a table, made before its rows are read. It is a guess, which saves the growth of what is read and decides nothing.
ghost use Rattle.std.specs.Prelude.{◌≡◌, ◌≤◌, [], IfOk, length};

use crate::layout::Head;
use link_base::{IdSet, NoMemory};
use std::alloc::Global;

// How many bytes of a text are looked at.
const LOOKED_AT: usize = 4096;

// About how many rows a text has, and bytes.
#[derive(Clone, Copy)]
pub(crate) struct Room {
    pub(crate) rows: u32,
    pub(crate) bytes: usize,
}

impl Room {
    // By the lines of the first part of a text, as a file of so many rows at most.
    pub(crate) fn of(bytes: &[u8], most_rows: u32) -> Room {
        let looked_at = bytes.len().min(LOOKED_AT);
        let lines = lines_in(&bytes[..looked_at]) + 1;
        let parts = bytes.len() / LOOKED_AT + 1;
        let rows = lines.saturating_mul(parts).min(most_rows as usize);
        Room {
            rows: rows as u32,
            bytes: bytes.len(),
        }
    }

    // Room for the ids, where there are some.
    pub(crate) fn for_ids(&self, alloc: Global, head: &Head) -> Result<IdSet, NoMemory>
        ensures { IfOk result (λ ids. ids ≡ []) }
    {
        if head.has_id {
            return IdSet::with_capacity(alloc, self.rows);
        }
        IdSet::new(alloc)
    }
}

// How many line ends there are.
fn lines_in(bytes: &[u8]) -> usize
    ensures { result ≤ length bytes.now }
{
    let mut lines = 0;
    for byte in bytes {
        if *byte == b'\n' {
            lines += 1;
        }
    }
    lines
}
