// A check of groups; no command makes one.
use dedup_groups::check_groups;
use link_base::NoMemory;

#[test]
fn a_record_by_itself_is_a_forest_of_no_depth(rt: HostRuntime) -> Result<(), NoMemory> {
    for depth in 0..2u32 {
        let is_forest = check_groups(rt.alloc(), 1, &[], &[0], &[None], &[depth])?;
        assert!(rt; is_forest == (depth == 0), "of depth {depth}");
    }
    Ok(())
}
