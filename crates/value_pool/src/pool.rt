// Distinct texts, a limit of their bytes, and room for more of them.
ghost use Rattle.std.specs.Prelude.{◌≡◌, ◌≤◌, ◌↔◌, IsTrue, ◌≢◌, AllPairs, ◌<◌, ◌+◌, [], ℕ, is_some, IfOk, IfSome, OnErr, OnOk, length, slice_get, sum_by};
ghost use Rattle.value_pool.specs.Pool.{FullExactly, HasRoom, HasTaken, IsAsBefore, KeepsRoom, stands_among};

use crate::hashes::{hash, last_word};
use crate::id::Id;
use crate::table::{Search, Table};
use link_limits::MOST_POOL_LIMIT;
use link_texts::{NoMemory, Piece};
use std::alloc::Global;
use std::marker::Model;

/// Why a text was not taken.
#[derive(Clone, Copy)]
pub enum PoolFault {
    /// The text is new, and with it the texts would have `used` bytes, past the limit.
    Full { used: u64, limit: u64 },
    NoMemory,
}

/// Distinct texts, a limit of the sum of their lengths in bytes, and spare room for texts and for bytes. Contracts see it
/// as the list of the texts with these numbers.
#[derive(Drop)]
pub struct Pool {
    table: Table,
    limit: u64,
}

impl Model for Pool {
    ghost use Rattle.std.specs.Prelude.{◌≤◌, length};
    ghost use Rattle.link_limits.specs.declared.TheConstants.{MOST_POOL_LIMIT};
    ghost use Rattle.value_pool.specs.Table.{IsTable, state_of};
    ghost use Rattle.value_pool.specs.Pool.{PoolState};

    ghost Value = { PoolState };

    ghost view = { λ p. state_of p.limit p.table };

    ghost invariant = { λ p. IsTable p.table × (length p.table.bytes.items ≤ p.limit) × (p.limit ≤ MOST_POOL_LIMIT) };
}

impl Pool {
    /// The pool of no texts, with a limit of at most `MOST_POOL_LIMIT` bytes.
    pub fn new(alloc: Global, limit: u64) -> Result<Pool, NoMemory>
        requires { limit ≤ MOST_POOL_LIMIT }
        ensures texts { IfOk result (λ pool. pool.texts ≡ []) }
        ensures limit { IfOk result (λ pool. pool.limit ≡ limit) }
        ensures used { IfOk result (λ pool. pool.used ≡ 0) }
    {
        let table = Table::new(alloc)?;
        Ok(Pool { table, limit })
    }

    /// Makes room for so many texts of so many bytes together. After a refusal the pool is as it was, or has more room.
    pub fn reserve(&mut self, alloc: Global, texts: u32, bytes: u64) -> Result<(), NoMemory>
        ensures texts { self.new.texts ≡ self.old.texts }
        ensures limit { self.new.limit ≡ self.old.limit }
        ensures used { self.new.used ≡ self.old.used }
        ensures ok { OnOk result (HasRoom self.new texts bytes) }
        ensures room { KeepsRoom self.old self.new 0 0 }
    {
        self.table.slots.reserve(texts as usize)?;
        self.table.bytes.reserve(bytes as usize)?;
        self.table.widen_for(alloc, texts);
        Ok(())
    }

    /// The number of texts.
    pub fn len(&self) -> u32
        ensures { result ≡ length self.now.texts }
    {
        self.table.slots.len() as u32
    }

    /// Whether there is no text.
    pub fn is_empty(&self) -> bool
        ensures { IsTrue result ↔ (length self.now.texts ≡ 0) }
    {
        self.table.slots.is_empty()
    }

    /// The bytes of a text.
    pub fn text(&self, id: Id) -> &[u8]
        requires { id < length self.now.texts }
        ensures { slice_get self.now.texts id ≡ Some result.now }
    {
        self.piece_at(id.place()).text()
    }

    /// The bytes of the text at a place, as a piece of the room of all texts.
    pub fn piece_at(&self, place: u32) -> Piece<'_>
        requires { place < length self.now.texts }
        ensures { slice_get self.now.texts place ≡ Some result }
    {
        let slot = self.table.slots[place as usize];
        Piece::within(&self.table.bytes, slot.start as usize, slot.end as usize)
    }

    /// No text stands twice, so two ids are equal exactly where their texts are; all texts together keep the limit.
    pub fn are_distinct(&self)
        ensures distinct { AllPairs (λ a b. a ≢ b) self.now.texts }
        ensures same_id { (a b : ℕ) → a < length self.now.texts → slice_get self.now.texts a ≡ slice_get self.now.texts b → a ≡ b }
        ensures used { self.now.used ≡ sum_by length self.now.texts }
        ensures limit { self.now.used ≤ self.now.limit }
    {
        let _table = &self.table;
    }

    /// The id of a text, and `None` exactly where it is not held.
    pub fn find(&self, text: &[u8]) -> Option<Id>
        ensures found { IfSome result (λ id. slice_get self.now.texts id ≡ Some text.now) }
        ensures held { is_some result ≡ stands_among self.now.texts text.now }
    {
        let hash = hash(text);
        let last = last_word(text);
        match self.table.search(hash, last, text).place {
            None => None,
            Some(place) => Some(Id::at(place)),
        }
    }

    /// The id of a text, which is taken where it is new. A refusal changes nothing but that there may be more room.
    #[inline(always)]
    pub fn intern(&mut self, alloc: Global, text: &[u8]) -> Result<Id, PoolFault>
        ensures found { IfOk result (λ id. slice_get self.new.texts id ≡ Some text.now) }
        ensures taken { OnOk result (HasTaken text.now self.old self.new) }
        ensures refused { OnErr result (IsAsBefore self.old self.new) }
        ensures limit { self.new.limit ≡ self.old.limit }
        ensures full { FullExactly self.old text.now result }
    {
        let hash = hash(text);
        let last = last_word(text);
        let Search { place, passed } = self.table.search(hash, last, text);
        if let Some(place) = place {
            return Ok(Id::at(place));
        }
        let used = self.table.bytes.len() as u64 + text.len() as u64;
        if used > self.limit {
            return Err(PoolFault::Full {
                used,
                limit: self.limit,
            });
        }
        match self.table.append(alloc, hash, last, text) {
            Ok(place) => {
                self.table.put_in_order(alloc, passed);
                self.table.widen(alloc);
                Ok(Id::at(place))
            }
            Err(NoMemory) => Err(PoolFault::NoMemory),
        }
    }
}
