// Memory of the host.
use std::alloc::Global;

// How large the block is that is taken and given back: a little less than the largest that glibc's `malloc` learns from.
const BLOCK_BYTES: usize = 33_488_896;

/// Takes a large block of memory and gives it back, untouched. The host's `malloc` (glibc's, whose threshold for blocks of the
/// system's own grows with the blocks that are given back) then keeps what later calls give back for what they take next, so that
/// less memory is touched for the first time. Where there is no such block, all stays as it was.
pub fn keep_memory(alloc: Global) {
    let block: Result<Vec<u8>, _> = Vec::with_capacity(alloc, BLOCK_BYTES);
    drop(block);
}
