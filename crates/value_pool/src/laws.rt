// What reserved room is worth.
ghost use Rattle.std.specs.Prelude.{◌+◌, ℕ};
ghost use Rattle.value_pool.specs.Pool.{HasRoom, KeepsRoom, PoolState};

/// A pool with room for a text and for more of them has room for those others after it has taken that one: so after a
/// `reserve` for some texts of some bytes, no `intern` of that many texts of that many bytes wants memory.
pub fn reserved_room()
    ensures { (old new : PoolState) (texts bytes more : ℕ)
        → HasRoom old (texts + 1) (bytes + more) → KeepsRoom old new 1 more → HasRoom new texts bytes }
{}
