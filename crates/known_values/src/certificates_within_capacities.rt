// A check within capacities; no command makes one.
use link_base::{Candidate, NoMemory, PairAt};
use price_check::{Verified, check_capacity};

#[test]
fn a_link_within_its_capacity(rt: HostRuntime) -> Result<(), NoMemory> {
    let candidates = [Candidate {
        a: 0,
        b: 0,
        weight: 5,
        value: 5,
        reviewed: false,
    }];
    let links = [PairAt { a: 0, b: 0 }];
    for capacity in 0..2u32 {
        let verified = check_capacity(rt.alloc(), 1, &[capacity], &candidates, &links, &[5], &[0])?;
        let is_certified = matches!(verified, Verified::Yes);
        assert!(rt; is_certified == (capacity == 1), "within {capacity}");
    }
    Ok(())
}
