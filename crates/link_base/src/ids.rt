// Distinct ids with their places.
ghost use Rattle.std.specs.Prelude.{◌≡◌, ◌<◌, ◌^◌, [], length, IfNone, IfOk, IfSome, None, OnErr, slice_index_or};
ghost use Rattle.link_base.specs.Ids.{AreDistinct, IsNewId, Keeps, position_among, AreRising, KeepsIds, ids_in};

use crate::region::TextRegion;
use crate::rising_ids::{USUAL_BYTES, comes_last, find_rising, pooled, rising_are_distinct};
use link_texts::{NoMemory, Piece};
use std::alloc::Global;
use std::marker::Model;
use value_pool::Pool;

/// Distinct ids in order, which contracts see as the list of them. They are fewer than 2^32. Ids that rise, as those of most
/// registers do, need no index: each is new, and is found by halving. From the first on that does not they stand in a pool.
#[derive(Drop)]
pub struct IdSet {
    rising: TextRegion,
    pooled: Option<Pool>,
    // How many ids are expected.
    expected: u32,
}

impl Model for IdSet {
    ghost use Rattle.std.specs.Prelude.{ℕ, List};
    ghost use Rattle.link_base.specs.Ids.{KeepsIds, ids_in};

    ghost Value = { List (List ℕ) };

    ghost view = { λ s. ids_in s.rising s.pooled };

    ghost invariant = { λ s. KeepsIds s.rising s.pooled };
}

// Keeps an id in a pool, if it is new; else gives the place of the one that is held.
#[inline(never)]
fn keep_in_pool(pool: &mut Pool, alloc: Global, id: &[u8]) -> Result<Option<usize>, NoMemory>
    ensures keeps { IfOk result (λ found. Keeps id.now pool.old.texts pool.new.texts found) }
    ensures within { IfOk result (λ found. IfSome found (λ place. place < length pool.old.texts)) }
    ensures err { OnErr result (pool.new.texts ≡ pool.old.texts) }
    ensures limit { pool.new.limit ≡ pool.old.limit }
{
    pool.are_distinct();
    let held = pool.len();
    let place = match pool.intern(alloc, id) {
        Ok(found) => found.place(),
        Err(_) => return Err(NoMemory),
    };
    if place < held {
        return Ok(Some(place as usize));
    }
    Ok(None)
}

// Keeps an id behind ids that rise, if it is new, and pools them where it does not come last; else gives the place of the one
// that is held.
#[inline(always)]
fn keep_behind(
    rising: &mut TextRegion,
    index: &mut Option<Pool>,
    expected: u32,
    alloc: Global,
    id: &[u8],
) -> Result<Option<usize>, NoMemory>
    requires none { index.old ≡ None }
    requires rising { AreRising rising.old }
    requires few { length rising.old < 2 ^ 32 }
    ensures kept { KeepsIds rising.new index.new }
    ensures keeps { IfOk result (λ found. Keeps id.now rising.old (ids_in rising.new index.new) found) }
    ensures within { IfOk result (λ found. IfSome found (λ place. place < length rising.old)) }
    ensures err { OnErr result (ids_in rising.new index.new ≡ rising.old) }
{
    if rising.len() < u32::MAX as usize && comes_last(rising, id) {
        rising.push(id)?;
        return Ok(None);
    }
    let mut pool = pooled(alloc, rising, expected)?;
    let found = keep_in_pool(&mut pool, alloc, id)?;
    *rising = TextRegion::new(alloc);
    *index = Some(pool);
    Ok(found)
}

// The place of an id in a pool.
fn find_in_pool(pool: &Pool, id: &[u8]) -> Option<u32>
    ensures position { result ≡ position_among id.now pool.now.texts }
    ensures within { IfSome result (λ at. at < length pool.now.texts) }
    ensures fresh { IfNone result (IsNewId id.now pool.now.texts) }
{
    pool.are_distinct();
    match pool.find(id) {
        Some(found) => Some(found.place()),
        None => None,
    }
}

impl IdSet {
    /// The set of no ids.
    pub fn new(alloc: Global) -> Result<IdSet, NoMemory>
        ensures { IfOk result (λ ids. ids ≡ []) }
    {
        IdSet::with_capacity(alloc, 0)
    }

    /// The set of no ids, with room for so many.
    pub fn with_capacity(alloc: Global, count: u32) -> Result<IdSet, NoMemory>
        ensures { IfOk result (λ ids. ids ≡ []) }
    {
        let texts = count as usize;
        let rising = TextRegion::with_capacity(alloc, texts, texts * USUAL_BYTES as usize)?;
        Ok(IdSet {
            rising,
            pooled: None,
            expected: count,
        })
    }

    /// Keeps an id that is new; else gives the place of the one that is held. A set of more than 1 GiB is want of memory.
    #[inline(always)]
    pub fn keep(&mut self, alloc: Global, id: &[u8]) -> Result<Option<usize>, NoMemory>
        ensures keeps { IfOk result (λ found. Keeps id.now self.old self.new found) }
        ensures within { IfOk result (λ found. IfSome found (λ place. place < length self.old)) }
        ensures err { OnErr result (self.new ≡ self.old) }
    {
        match &mut self.pooled {
            Some(pool) => keep_in_pool(pool, alloc, id),
            None => keep_behind(&mut self.rising, &mut self.pooled, self.expected, alloc, id),
        }
    }

    // The same ids; those that rise are copied, into as much memory as they need.
    pub(crate) fn copied(self, alloc: Global) -> Result<IdSet, NoMemory>
        ensures { IfOk result (λ ids. ids ≡ self) }
    {
        let rising = self.rising.copied(alloc)?;
        Ok(IdSet {
            rising,
            pooled: self.pooled,
            expected: self.expected,
        })
    }

    /// The number of ids.
    pub fn len(&self) -> u32
        ensures { result ≡ length self.now }
    {
        match &self.pooled {
            Some(pool) => pool.len(),
            None => self.rising.len() as u32,
        }
    }

    /// The id at a place, from 0.
    pub fn id(&self, at: u32) -> &[u8]
        requires { at < length self.now }
        ensures { result.now ≡ slice_index_or self.now at [] }
    {
        self.piece(at).text()
    }

    /// The id at a place, as a piece of the room of all ids.
    pub fn piece(&self, at: u32) -> Piece<'_>
        requires { at < length self.now }
        ensures { result ≡ slice_index_or self.now at [] }
    {
        match &self.pooled {
            Some(pool) => pool.piece_at(at),
            None => self.rising.piece(at as usize),
        }
    }

    /// The place of an id. `None` exactly where it is not held.
    pub fn find(&self, id: &[u8]) -> Option<u32>
        ensures position { result ≡ position_among id.now self.now }
        ensures within { IfSome result (λ at. at < length self.now) }
        ensures fresh { IfNone result (IsNewId id.now self.now) }
    {
        match &self.pooled {
            Some(pool) => find_in_pool(pool, id),
            None => match find_rising(&self.rising, id) {
                Some(at) => Some(at as u32),
                None => None,
            },
        }
    }

    /// Law: no id stands twice.
    pub fn distinct(&self)
        ensures { AreDistinct self.now }
    {
        match &self.pooled {
            Some(pool) => pool.are_distinct(),
            None => rising_are_distinct(&self.rising),
        }
    }
}
