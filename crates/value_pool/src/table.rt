// A table of distinct texts in one region of bytes, with a look-up that takes few comparisons whichever texts they are.
ghost use Rattle.std.specs.Prelude.{◌≡◌, ◌≤◌, ◌<◌, ◌+◌, ◌-◌, ◌^◌, [], false, is_some, IfOk, IfSome, OnErr, OnOk, length, slice_get};
ghost use Rattle.link_limits.specs.declared.TheConstants.{MOST_POOL_LIMIT};
ghost use Rattle.value_pool.specs.Hashes.{hash_of, last_word};
ghost use Rattle.value_pool.specs.Pool.{HasRoom, IsAsBefore, stands_among};
ghost use Rattle.value_pool.specs.Table.{IsSlotWithin, HasAppended, IsTable, has_text, state_of, texts_of};

use crate::chains::{Slot, bucket, empty_heads, thread};
use crate::order::{Order, place_in};
use crate::same_text::same_text;
use link_texts::NoMemory;
use std::alloc::Global;

/// The buckets of a new table, a power of 2. They double as texts come.
const FIRST_BUCKETS: usize = 1024;

/// A chain of so many texts is a long one: when another comes to it, all texts are put in order. With two buckets a text, and
/// texts that were not chosen for their hashes, the chance of that is below 10^-12 for a million texts.
const LONG_CHAIN: u32 = 16;

/// Texts one after the other, and the chains of the buckets of their hashes.
#[derive(Drop)]
pub(crate) struct Table {
    pub(crate) bytes: Vec<u8>,
    pub(crate) slots: Vec<Slot>,
    // One more than the last place of each bucket, or 0.
    heads: Vec<u32>,
    order: Order,
}

/// What a search for a text gives.
#[derive(Clone, Copy)]
pub(crate) struct Search {
    /// The place of the text, where it is held.
    pub(crate) place: Option<u32>,
    /// How many other texts of its chain were passed: at most `LONG_CHAIN`, where there is an order.
    pub(crate) passed: u32,
}

// Whether a slot has a text of this hash and this last word. The bytes are read only of a longer text, where both agree.
fn has_text(bytes: &[u8], slot: Slot, hash: u32, last: u64, text: &[u8]) -> bool
    requires within { IsSlotWithin bytes.now slot }
    requires last { last ≡ last_word text.now }
    ensures { result ≡ has_text bytes.now slot hash text.now }
{
    let held = &bytes[slot.start as usize..slot.end as usize];
    slot.hash == hash && same_text(held, slot.last, text, last)
}

impl Table {
    /// The table of no texts.
    pub(crate) fn new(alloc: Global) -> Result<Table, NoMemory>
        ensures table { IfOk result IsTable }
        ensures texts { IfOk result (λ table. texts_of table ≡ []) }
        ensures used { IfOk result (λ table. table.bytes.items ≡ []) }
    {
        let bytes = Vec::new(alloc);
        let slots = Vec::new(alloc);
        let heads = empty_heads(alloc, FIRST_BUCKETS)?;
        Ok(Table {
            bytes,
            slots,
            heads,
            order: Order::Unneeded,
        })
    }

    /// Looks for a text, by its hash and its last word.
    #[inline(always)]
    pub(crate) fn search(&self, hash: u32, last: u64, text: &[u8]) -> Search
        requires table { IsTable self.now }
        requires hash { hash ≡ hash_of text.now }
        requires last { last ≡ last_word text.now }
        ensures found { IfSome result.place (λ place. slice_get (texts_of self.now) place ≡ Some text.now) }
        ensures held { is_some result.place ≡ stands_among (texts_of self.now) text.now }
        ensures small { IfSome result.place (λ place. place < 2 ^ 32 - 1) }
    {
        let bucket = bucket(hash, self.heads.len());
        let mut at = self.heads[bucket];
        let mut passed = 0;
        'chain: while at != 0 {
            if passed == LONG_CHAIN {
                if let Order::Places(places) = &self.order {
                    return Search {
                        place: place_in(places, text),
                        passed,
                    };
                }
            }
            let slot = self.slots[(at - 1) as usize];
            if has_text(&self.bytes, slot, hash, last, text) {
                return Search {
                    place: Some(at - 1),
                    passed,
                };
            }
            passed += 1;
            at = slot.next;
        }
        Search {
            place: None,
            passed,
        }
    }

    /// Appends a text that is not held, by its hash and its last word.
    pub(crate) fn append(
        &mut self,
        alloc: Global,
        hash: u32,
        last: u64,
        text: &[u8],
    ) -> Result<u32, NoMemory>
        requires table { IsTable self.old }
        requires hash { hash ≡ hash_of text.now }
        requires last { last ≡ last_word text.now }
        requires fresh { stands_among (texts_of self.old) text.now ≡ false }
        requires fits { length self.old.bytes.items + length text.now ≤ MOST_POOL_LIMIT }
        ensures table { IsTable self.new }
        ensures place { IfOk result (λ place. place ≡ length (texts_of self.old)) }
        ensures small { IfOk result (λ place. place < 2 ^ 32 - 1) }
        ensures appended { OnOk result (HasAppended text.now self.old self.new) }
        ensures refused { OnErr result (IsAsBefore (state_of 0 self.old) (state_of 0 self.new)) }
        ensures cause { OnErr result (HasRoom (state_of 0 self.old) 1 (length text.now) → ⊥) }
    {
        self.slots.reserve(1)?;
        let start = self.bytes.len() as u32;
        let end = start + text.len() as u32;
        if self.bytes.extend_from_slice(text).is_err() {
            return Err(NoMemory);
        }
        let place = self.slots.len() as u32;
        let bucket = bucket(hash, self.heads.len());
        let next = self.heads[bucket];
        let slot = Slot {
            start,
            end,
            next,
            hash,
            last,
        };
        self.slots.push_reserved(slot);
        self.heads[bucket] = place + 1;
        self.order.take(alloc, text, place);
        Ok(place)
    }

    // Spreads the chains over so many buckets. Without memory for them the chains stay as they are.
    fn spread(&mut self, alloc: Global, buckets: usize)
        requires table { IsTable self.old }
        requires some { 1 ≤ buckets }
        ensures table { IsTable self.new }
        ensures state { state_of 0 self.new ≡ state_of 0 self.old }
    {
        match empty_heads(alloc, buckets) {
            Ok(mut heads) => {
                thread(&mut self.slots, &mut heads);
                self.heads = heads;
            }
            Err(NoMemory) => {}
        }
    }

    /// Doubles the buckets where there are fewer than two of them a text. Without memory for more the chains grow.
    pub(crate) fn widen(&mut self, alloc: Global)
        requires { IsTable self.old }
        ensures table { IsTable self.new }
        ensures state { state_of 0 self.new ≡ state_of 0 self.old }
    {
        let buckets = self.heads.len();
        if self.slots.len() > buckets / 2 {
            self.spread(alloc, 2 * buckets);
        }
    }

    /// Makes two buckets a text for so many texts, where there are fewer. Without memory for more the chains grow.
    pub(crate) fn widen_for(&mut self, alloc: Global, texts: u32)
        requires { IsTable self.old }
        ensures table { IsTable self.new }
        ensures state { state_of 0 self.new ≡ state_of 0 self.old }
    {
        let buckets = (2 * texts as usize).next_power_of_two();
        if buckets > self.heads.len() {
            self.spread(alloc, buckets);
        }
    }

    /// Puts all texts in order after a search along a long chain, if it is the first one.
    pub(crate) fn put_in_order(&mut self, alloc: Global, passed: u32)
        requires { IsTable self.old }
        ensures table { IsTable self.new }
        ensures state { state_of 0 self.new ≡ state_of 0 self.old }
    {
        if passed < LONG_CHAIN {
            return;
        }
        if let Order::Unneeded = self.order {
            self.order = Order::of(alloc, &self.bytes, &self.slots);
        }
    }
}
