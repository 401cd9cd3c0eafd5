// Codes with their numbers.
ghost use Rattle.std.specs.Prelude.{◌≡◌, ◌<◌, ◌≤◌, ◌+◌, ◌^◌, [], length, IfOk, OnOk};
ghost use Rattle.value_pool.specs.Pool.{place_among};
ghost use Rattle.block_passes.specs.Numbering.{code_if, IsNumbered, KeepNumbers, number_among, with_code};

use link_base::NoMemory;
use link_limits::MOST_POOL_LIMIT;
use std::alloc::Global;
use std::marker::Model;
use value_pool::{Pool, PoolFault};

/// The number where there is no code.
pub(crate) const NO_NUMBER: u32 = u32::MAX;

/// Distinct codes, each with its place as its number. They stand in a pool, so that codes chosen for its hash do not keep
/// look-ups long. Contracts see the list of them. Codes of more than 1 GiB together are want of memory.
#[derive(Drop)]
pub(crate) struct Numbering {
    codes: Pool,
}

impl Model for Numbering {
    ghost use Rattle.std.specs.Prelude.{◌≡◌, ℕ, List};
    ghost use Rattle.link_limits.specs.declared.TheConstants.{MOST_POOL_LIMIT};

    ghost Value = { List (List ℕ) };

    ghost view = { λ n. n.codes.texts };

    ghost invariant = { λ n. n.codes.limit ≡ MOST_POOL_LIMIT };
}

impl Numbering {
    pub(crate) fn new(alloc: Global) -> Result<Numbering, NoMemory>
        ensures { IfOk result (λ numbering. numbering ≡ []) }
    {
        let codes = Pool::new(alloc, MOST_POOL_LIMIT)?;
        Ok(Numbering { codes })
    }

    /// How many codes have a number.
    pub(crate) fn count(&self) -> u32
        ensures count { result ≡ length self.now }
        ensures few { length self.now < 2 ^ 32 }
    {
        self.codes.len()
    }

    /// The place of a code, or the number of codes where it is none of them.
    pub(crate) fn place(&self, code: &[u8]) -> u32
        ensures { result ≡ place_among self.now code.now }
    {
        self.codes.are_distinct();
        match self.codes.find(code) {
            Some(id) => id.place(),
            None => self.codes.len(),
        }
    }

    /// The number of a code, if there is one.
    pub(crate) fn find(&self, has_code: bool, code: &[u8]) -> u32
        ensures { result ≡ number_among self.now (code_if has_code code.now) }
    {
        if !has_code {
            return NO_NUMBER;
        }
        self.place(code)
    }

    /// The number of a code, if there is one, the next number if it had none.
    pub(crate) fn number(
        &mut self,
        alloc: Global,
        has_code: bool,
        code: &[u8],
    ) -> Result<u32, NoMemory>
        ensures number { IfOk result (λ n. n ≡ number_among self.new (code_if has_code code.now)) }
        ensures numbered { OnOk result (IsNumbered self.new (code_if has_code code.now)) }
        ensures kept { OnOk result (KeepNumbers self.old self.new) }
        ensures count { OnOk result (length self.new ≤ length self.old + 1) }
    {
        if !has_code {
            return Ok(NO_NUMBER);
        }
        self.take(alloc, code)
    }

    // The place of a code, which goes last if it is new.
    fn take(&mut self, alloc: Global, code: &[u8]) -> Result<u32, NoMemory>
        ensures number { IfOk result (λ n. n ≡ place_among self.new code.now) }
        ensures codes { OnOk result (self.new ≡ with_code self.old code.now) }
    {
        match self.codes.intern(alloc, code) {
            Ok(id) => {
                self.codes.are_distinct();
                Ok(id.place())
            }
            Err(PoolFault::Full { .. } | PoolFault::NoMemory) => Err(NoMemory),
        }
    }
}
