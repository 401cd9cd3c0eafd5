// The records that the ids in a file name.
ghost use Rattle.std.specs.Prelude.{◌<◌, IfOk, length};
ghost use Rattle.link_base.specs.Fault.{IsAnswer};
ghost use Rattle.file_reader.specs.Known.{known_in, pair_in};

use link_base::{Fault, FileRole, PairAt, StdFile, Text};
use std::alloc::Global;

/// The position of the record that an id names, which stands in a column of a row of some file; `UnknownId` exactly where
/// no record has it. The row is numbered from 1.
pub fn known_record(
    alloc: Global,
    role: FileRole,
    row: u32,
    column: &[u8],
    id: &[u8],
    file: &StdFile,
) -> Result<u32, Fault>
    ensures answer { IsAnswer (known_in role row column.now id.now file.now) result }
    ensures within { IfOk result (λ at. at < length file.now) }
{
    match file.find(id) {
        Some(at) => Ok(at),
        None => {
            let column = Text::new(alloc, column)?;
            Err(Fault::UnknownId { role, row, column })
        }
    }
}

/// The positions of the pair of records that the ids `id_a` and `id_b` of a row name, the one in A sought first.
pub fn known_pair(
    alloc: Global,
    role: FileRole,
    row: u32,
    id_a: &[u8],
    id_b: &[u8],
    a: &StdFile,
    b: &StdFile,
) -> Result<PairAt, Fault>
    ensures answer { IsAnswer (pair_in role row id_a.now id_b.now a.now b.now) result }
    ensures within { IfOk result (λ at. (at.a < length a.now) × (at.b < length b.now)) }
{
    let of_a = match known_record(alloc, role, row, b"id_a", id_a, a) {
        Ok(of_a) => of_a,
        Err(fault) => return Err(fault),
    };
    match known_record(alloc, role, row, b"id_b", id_b, b) {
        Ok(of_b) => Ok(PairAt { a: of_a, b: of_b }),
        Err(fault) => Err(fault),
    }
}
