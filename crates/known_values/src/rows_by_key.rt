// Indexes by keys, keys of rows and their ids, and lists of compared pairs have the memory that they want; the commands walk by
// lists of rows.
use block_passes::{build_index, build_index_in, id_key, key_ids, pass_key};
use link_base::{IdSet, NoMemory, RowsWriter, StdFile};
use pair_walk::{walk, walk_in};
use std::alloc::Global;
use value_forms::{Pass, PassList};
use value_pool::Pool;

// A file of one record without values.
fn one_record(alloc: Global) -> Result<StdFile, NoMemory> {
    let mut rows = RowsWriter::with_capacity(alloc, 1, 0)?;
    rows.close()?;
    let rows = rows.finish();
    let mut ids = IdSet::new(alloc)?;
    ids.keep(alloc, b"A1")?;
    Ok(StdFile::of(ids, rows))
}

#[test]
fn indexes_without_parts(rt: HostRuntime) -> Result<(), NoMemory> {
    let alloc = rt.alloc();
    let pool = Pool::new(alloc, 10)?;
    let file = one_record(alloc)?;
    let pass = Pass::new(Vec::new(alloc));
    assert!(rt; build_index(alloc, &file, &pass).is_ok());
    assert!(rt; build_index_in(alloc, &file, &pass, &pool).is_ok());
    assert!(rt; file.rows() == 1);
    assert!(rt; pass_key(alloc, &file.row(0), &pass).is_ok());
    assert!(rt; id_key(alloc, &file.row(0), &pass, &pool).is_ok());
    let passes = PassList::new(Vec::new(alloc));
    assert!(rt; walk(alloc, &file, &file, &passes).is_ok());
    assert!(rt; walk_in(alloc, &file, &file, &passes, &pool).is_ok());
    assert!(rt; key_ids(alloc, &file, &passes, &pool).is_ok());
    Ok(())
}
