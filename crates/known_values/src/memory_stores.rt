// A store and a sink in memory of which no call fails; the worked inputs run over those whose planned calls do.
use link_base::Fault;
use link_outside::{MemorySink, MemoryStore, Refusal, Store, write_refusal};
use std::test::Fail;

#[test]
fn what_is_put_is_held_and_a_line_is_taken_where_nothing_fails(
    rt: HostRuntime,
) -> Result<(), Fail> {
    let alloc = rt.alloc();
    let mut store = MemoryStore::new(alloc, &[])?;
    assert!(rt; store.hold(alloc, "x", b"abc").is_ok());
    assert!(rt; store.put(alloc, "y", b"d").is_ok());
    assert!(rt; store.load(alloc, "x", 0).is_ok());
    drop(store);
    let mut sink = MemorySink::new(alloc, &[])?;
    let refusal = Refusal::Fault(Fault::TooManyPairs { limit: 2 });
    assert!(rt; write_refusal(alloc, &refusal, &mut sink).is_ok());
    assert!(rt; sink.bytes() == b"linkage: pairs: more than 2\n".as_slice());
    Ok(())
}
