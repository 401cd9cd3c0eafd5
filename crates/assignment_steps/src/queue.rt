// A queue of records by distance, over a heap (Knuth vol. 3, section 5.2.3) of fixed room.
ghost use Rattle.std.specs.Prelude.{◌≡◌, ◌*◌, ◌/◌, ◌<◌, ◌≤◌, IfOk};
ghost use Rattle.assignment_steps.specs.Queue.{IsEmptyQueue, Puts, Takes, rank_of, turn_after};

use link_base::NoMemory;
use std::alloc::Global;
use std::collections::BinaryHeap;
use std::marker::Model;

/// No distance in a queue is greater.
pub const FARTHEST: u32 = 1_000_000_000;

/// How many puts after a clear keep their order among equals.
pub const TURNS: u64 = 4_294_967_296;

/// No rank in a queue is greater.
const LAST: u64 = 8_589_934_600_589_934_591;

/// A record at a distance.
#[derive(Clone, Copy, Debug, PartialEq, Eq)]
pub struct Near {
    pub position: usize,
    pub distance: u32,
}

/// A queue of records by distance, which contracts see as the pairs of a distance and a record that wait
/// in it, the pairs of a rank and a record, the turn of the next put, how many they are and how many may be. A record
/// may wait at several distances. Of equal distances those that go first have the lesser rank, and then those that came
/// earlier, for the first [`TURNS`] puts after a clear.
#[derive(Drop)]
pub struct DistanceQueue {
    // What is left to the last rank, so that the greatest entry is the one of the least rank.
    heap: BinaryHeap<(u64, usize)>,
    turn: u64,
}

impl Model for DistanceQueue {
    ghost use Rattle.std.specs.Prelude.{◌<◌, map};
    ghost use Rattle.std.specs.Ordering.{nat_cmp, ordering_then};
    ghost use Rattle.std.specs.BinaryHeap.{IsHeap, heap_items, heap_len, heap_capacity};
    ghost use Rattle.assignment_steps.specs.declared.queue.TheConstants.{TURNS};
    ghost use Rattle.assignment_steps.specs.Kept.{ranked_of, waiting_of};
    ghost use Rattle.assignment_steps.specs.Queue.{Queue};

    ghost Value = { Queue };

    ghost view = { λ q. record { waiting = map waiting_of (heap_items q.heap); ranked = map ranked_of (heap_items q.heap); turn = q.turn; count = heap_len q.heap; room = heap_capacity q.heap } };

    ghost invariant = { λ q. (q.turn < TURNS) × IsHeap (λ x y. ordering_then (nat_cmp x.0 y.0) (nat_cmp x.1 y.1)) (heap_items q.heap) };
}

// The rank of a record at a distance that is put in a turn.
fn rank_of(distance: u32, first: bool, turn: u64) -> u64
    requires near { distance ≤ FARTHEST }
    requires turn { turn < TURNS }
    ensures rank { result ≡ rank_of distance first turn }
    ensures within { result ≤ LAST }
    ensures distance { result / (2 * TURNS) ≡ distance }
{
    let others = if first { 0 } else { 1 };
    (2 * u64::from(distance) + others) * TURNS + turn
}

// The turn after another.
fn turn_after(turn: u64) -> u64
    requires { turn < TURNS }
    ensures next { result ≡ turn_after turn }
    ensures within { result < TURNS }
{
    if turn + 1 < TURNS { turn + 1 } else { turn }
}

impl DistanceQueue {
    /// An empty queue with room for so many.
    pub fn new(alloc: Global, room: usize) -> Result<DistanceQueue, NoMemory>
        ensures { IfOk result (IsEmptyQueue room) }
    {
        let heap = BinaryHeap::with_capacity(alloc, room)?;
        Ok(DistanceQueue { heap, turn: 0 })
    }

    /// Puts a record at a distance; `first` asks that it come before others at that distance.
    pub fn put(&mut self, distance: u32, first: bool, position: usize)
        requires near { distance ≤ FARTHEST }
        requires room { self.old.count < self.old.room }
        ensures { Puts self.old self.new distance first position }
    {
        let rank = rank_of(distance, first, self.turn);
        self.turn = turn_after(self.turn);
        let Ok(()) = self.heap.push((LAST - rank, position)) else {
            unreachable!();
        };
    }

    /// Takes a record with the least rank, and so with the least distance, and none where the queue is empty.
    pub fn take(&mut self) -> Option<Near>
        ensures { Takes self.old self.new result }
    {
        let (left, position) = self.heap.pop()?;
        let rank = LAST.saturating_sub(left);
        let distance = (rank / (2 * TURNS)) as u32;
        Some(Near { position, distance })
    }

    /// Takes all out.
    pub fn clear(&mut self)
        ensures empty { IsEmptyQueue self.old.room self.new }
        ensures room { self.new.room ≡ self.old.room }
    {
        self.heap.clear();
        self.turn = 0;
    }
}
