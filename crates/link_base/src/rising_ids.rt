// Ids that rise, of which each comes after the one before it.
ghost use Rattle.std.specs.Prelude.{◌≡◌, ◌<◌, All, IfNone, IfOk, IfSome, IsTrue, OnOk, length};
ghost use Rattle.link_base.specs.Ids.{AreDistinct, IsNewId, position_among, AreRising, comes_before, is_lesser};
ghost use Rattle.link_limits.specs.declared.TheConstants.{MOST_POOL_LIMIT};
ghost use Rattle.value_pool.specs.Pool.{with_text};

use crate::region::TextRegion;
use link_limits::MOST_POOL_LIMIT;
use link_texts::NoMemory;
use std::alloc::Global;
use value_pool::Pool;

// How many bytes an id may have for which room is made beforehand.
pub(crate) const USUAL_BYTES: u32 = 8;

// Of two texts of one length, whether the first has the lesser byte where they first differ.
fn is_lesser(x: &[u8], y: &[u8]) -> bool
    requires { length x.now ≡ length y.now }
    ensures { result ≡ is_lesser x.now y.now }
{
    for at in 0..x.len() {
        if x[at] != y[at] {
            return x[at] < y[at];
        }
    }
    false
}

// Whether a text comes before another: a shorter one before a longer one, and of one length by their bytes.
fn comes_before(x: &[u8], y: &[u8]) -> bool
    ensures { result ≡ comes_before x.now y.now }
{
    if x.len() == y.len() {
        is_lesser(x, y)
    } else {
        x.len() < y.len()
    }
}

/// Whether an id comes after all of these.
pub(crate) fn comes_last(ids: &TextRegion, id: &[u8]) -> bool
    requires { AreRising ids.now }
    ensures { IsTrue result → All (λ held. IsTrue (comes_before held id.now)) ids.now }
{
    let count = ids.len();
    if count == 0 {
        return true;
    }
    comes_before(ids.get(count - 1), id)
}

/// The place of an id among these, found by halving.
pub(crate) fn find_rising(ids: &TextRegion, id: &[u8]) -> Option<usize>
    requires { AreRising ids.now }
    ensures position { result ≡ position_among id.now ids.now }
    ensures within { IfSome result (λ at. at < length ids.now) }
    ensures fresh { IfNone result (IsNewId id.now ids.now) }
{
    let mut low = 0;
    let mut high = ids.len();
    'halves: while low < high {
        let middle = low + (high - low) / 2;
        let held = ids.get(middle);
        if comes_before(held, id) {
            low = middle + 1;
        } else if comes_before(id, held) {
            high = middle;
        } else {
            return Some(middle);
        }
    }
    None
}

/// Law: no id stands twice.
pub(crate) fn rising_are_distinct(ids: &TextRegion)
    requires { AreRising ids.now }
    ensures { AreDistinct ids.now }
{
    let _ = ids;
}

// Takes a text into a pool.
fn take_in(pool: &mut Pool, alloc: Global, text: &[u8]) -> Result<(), NoMemory>
    ensures texts { OnOk result (pool.new.texts ≡ with_text pool.old text.now) }
    ensures limit { pool.new.limit ≡ pool.old.limit }
{
    match pool.intern(alloc, text) {
        Ok(_) => Ok(()),
        Err(_) => Err(NoMemory),
    }
}

/// The same ids in a pool with room for so many.
#[inline(never)]
pub(crate) fn pooled(alloc: Global, ids: &TextRegion, count: u32) -> Result<Pool, NoMemory>
    requires { AreRising ids.now }
    ensures texts { IfOk result (λ pool. pool.texts ≡ ids.now) }
    ensures limit { IfOk result (λ pool. pool.limit ≡ MOST_POOL_LIMIT) }
{
    let mut pool = Pool::new(alloc, MOST_POOL_LIMIT)?;
    pool.reserve(alloc, count, u64::from(count) * u64::from(USUAL_BYTES))?;
    for at in 0..ids.len() {
        take_in(&mut pool, alloc, ids.get(at))?;
    }
    Ok(pool)
}
