// Prices that are copied one by one.
ghost use Rattle.std.specs.Prelude.{◌≡◌, ◌<◌, IfOk, List, length, ℕ, ℤ};
ghost use Rattle.price_check.specs.Assignment.{price_of};

use link_base::NoMemory;
use std::alloc::Global;

/// The prices that an answer tells of so many records, by their positions.
pub(crate) fn prices_of<F: Fn(u32) -> i64>(
    alloc: Global,
    rows: u32,
    price: F,
) -> Result<Vec<i64>, NoMemory>
    requires { (at : ℕ) → at < rows → F.pre price at }
    ensures { (told : List ℤ) → length told ≡ rows → ((at : ℕ) (p : ℤ) → at < rows → F.post price at p → p ≡ price_of told at)
        → IfOk result (λ prices. prices.items ≡ told) }
{
    let mut prices = Vec::with_capacity(alloc, rows as usize)?;
    for at in 0..rows {
        prices.push(price(at))?;
    }
    Ok(prices)
}
