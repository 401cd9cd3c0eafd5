// Chains of the texts of one bucket (Knuth, vol. 3, 6.4: hashing with separate chaining).
ghost use Rattle.std.specs.Prelude.{◌≡◌, ◌≤◌, ◌<◌, ◌^◌, All, List, ℕ, IfOk, length, slice_index_or};
ghost use Rattle.value_pool.specs.Table.{IsChained, bucket_of, IsSlotWithin, hashes_of, nexts_of, texts_at};

use link_texts::NoMemory;
use std::alloc::Global;

/// Where a text stands among the bytes, its hash, its last word, and what its chain goes on with.
#[derive(Clone, Copy)]
pub(crate) struct Slot {
    pub(crate) start: u32,
    pub(crate) end: u32,
    /// One more than the place before it in its chain, or 0.
    pub(crate) next: u32,
    pub(crate) hash: u32,
    pub(crate) last: u64,
}

/// The bucket of a hash: its low bits, since the buckets are a power of 2.
#[tactic(auto, using(std::proofs::lemmas::Nat::and_le_r))]
pub(crate) fn bucket(hash: u32, buckets: usize) -> usize
    requires { 1 ≤ buckets }
    ensures value { result ≡ bucket_of buckets hash }
    ensures within { result < buckets }
{
    hash as usize & (buckets - 1)
}

/// The heads of so many empty chains.
pub(crate) fn empty_heads(alloc: Global, buckets: usize) -> Result<Vec<u32>, NoMemory>
    ensures len { IfOk result (λ heads. length heads.items ≡ buckets) }
    ensures empty { IfOk result (λ heads. (b : ℕ) → b < buckets → slice_index_or heads.items b 0 ≡ 0) }
{
    Ok(vec![in alloc; 0; buckets]?)
}

/// Threads each text into the chain of its bucket, whatever the chains were before.
pub(crate) fn thread(slots: &mut [Slot], heads: &mut [u32])
    requires few { length slots.old < 2 ^ 32 }
    requires some { 1 ≤ length heads.old }
    requires empty { (b : ℕ) → b < length heads.old → slice_index_or heads.old b 0 ≡ 0 }
    ensures texts { (bytes : List ℕ) → texts_at bytes slots.new ≡ texts_at bytes slots.old }
    ensures within { (bytes : List ℕ) → All (IsSlotWithin bytes) slots.old → All (IsSlotWithin bytes) slots.new }
    ensures hashes { hashes_of slots.new ≡ hashes_of slots.old }
    ensures chained { IsChained heads.new (hashes_of slots.new) (nexts_of slots.new) }
{
    for place in 0..slots.len() {
        let Slot {
            start,
            end,
            hash,
            last,
            ..
        } = slots[place];
        let bucket = bucket(hash, heads.len());
        let next = heads[bucket];
        slots[place] = Slot {
            start,
            end,
            next,
            hash,
            last,
        };
        heads[bucket] = place as u32 + 1;
    }
}
