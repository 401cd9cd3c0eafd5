// Why written files are refuted.
ghost use Rattle.std.specs.Prelude.{◌≡◌, IfOk, IfSome, Ok};

use link_base::{NoMemory, PairAt};
use std::alloc::AllocFailed;

/// Why written files are not what a run may write: the first reason in this order. Rows are numbered from 1 after the header, and 0 is
/// the header.
#[derive(Clone, Copy)]
pub enum Refutation {
    /// The row of the rule that is not that of its cell, is missing, or is one too many.
    Rule { row: u32 },
    /// The row of the links that has not the fields of a candidate, or does not stand after the rows before it by position.
    Link { row: u32 },
    /// The row of a link with a record that an earlier link has.
    Reused { row: u32 },
    /// The row of the prices that is not of their form, has an unknown id, has a price outside 1 to 1,000,000, or does not rise.
    Price { row: u32 },
    /// The candidate whose two prices add up to less than its value.
    Uncovered { at: PairAt },
    /// What the links are worth, and the sum of all prices, where they differ.
    Sum { links: i64, prices: i64 },
    /// Memory was wanted, which refutes nothing.
    NoMemory,
}

impl From<NoMemory> for Refutation {
    ghost use Rattle.std.specs.Prelude.{◌≡◌};
    ghost use Rattle.written_check.specs.declared.refutation.Refutation.TheVariants as refutation;

    ghost from_gives = { λ _ e. e ≡ refutation.NoMemory };

    fn from(_: NoMemory) -> Refutation {
        Refutation::NoMemory
    }
}

impl<T: Drop> From<AllocFailed<T>> for Refutation {
    ghost use Rattle.std.specs.Prelude.{◌≡◌};
    ghost use Rattle.written_check.specs.declared.refutation.Refutation.TheVariants as refutation;

    ghost from_gives = { λ _ e. e ≡ refutation.NoMemory };

    fn from(_: AllocFailed<T>) -> Refutation {
        Refutation::NoMemory
    }
}

/// What rows give, or nothing where a reason refutes them.
pub(crate) fn unless_refuted<T: Drop>(answer: Result<T, Refutation>) -> Result<Option<T>, NoMemory>
    ensures { IfOk result (λ given. IfSome given (λ x. answer ≡ Ok x)) }
{
    match answer {
        Ok(given) => Ok(Some(given)),
        Err(Refutation::NoMemory) => Err(NoMemory),
        Err(_) => Ok(None),
    }
}
