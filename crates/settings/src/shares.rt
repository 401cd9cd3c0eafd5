// Given shares of outcomes.
ghost use Rattle.std.specs.Prelude.{◌≡◌, List, [], ◌∷◌, ℤ, true, false, Some, is_some, map};
ghost use Rattle.toml.specs.View.{view, items_view};
ghost use Rattle.settings_readers.specs.Values.{magnitude};
ghost use Rattle.settings.specs.Field.{wholes, share_at, shares_or_none, shares};

use link_limits::WHOLE_FIELD;
use settings_readers::{KeyFault, Place, Reader};
use std::alloc::Global;
use toml::Value;

/// Shares of three outcomes, or with a rare number of four.
#[derive(Drop)]
pub(crate) struct Shares {
    pub(crate) rare: bool,
}

impl Reader for Shares {
    type Item = [u16; 4];

    ghost gives = { λ s. shares s.rare };

    fn read(&self, alloc: Global, place: &Place, value: &Value) -> Result<[u16; 4], KeyFault> {
        match value.as_array() {
            None => place.wrong_type(alloc),
            Some(items) => {
                if !are_whole(items) {
                    return place.wrong_type(alloc);
                }
                match shares_in(self.rare, items) {
                    None => place.out_of_range(alloc),
                    Some(shares) => Ok(shares),
                }
            }
        }
    }
}

fn are_whole(items: &[Value]) -> bool
    ensures { result ≡ is_some (wholes (items_view items.now)) }
{
    items.iter().all(|item| item.is_integer())
}

/// A whole number, or 0 where it is negative.
fn share(value: &Value) -> u64
    ensures { result ≡ share_at (view value.now) }
{
    match value.as_integer() {
        Some(number) if 0 <= number => number as u64,
        _ => 0,
    }
}

/// The shares of whole numbers, where they are in range.
fn shares_in(rare: bool, items: &[Value]) -> Option<[u16; 4]>
    ensures { (zs : List ℤ) → wholes (items_view items.now) ≡ Some zs
        → result ≡ shares_or_none rare (map magnitude zs) }
{
    if rare {
        match items {
            [agree, disagree, missing, often] => {
                four_shares(share(agree), share(disagree), share(missing), share(often))
            }
            _ => None,
        }
    } else {
        match items {
            [agree, disagree, missing] => {
                three_shares(share(agree), share(disagree), share(missing))
            }
            _ => None,
        }
    }
}

fn three_shares(agree: u64, disagree: u64, missing: u64) -> Option<[u16; 4]>
    ensures { result ≡ shares_or_none false (agree ∷ disagree ∷ missing ∷ []) }
{
    let sum = u128::from(agree) + (u128::from(disagree) + u128::from(missing));
    if 1 <= agree && 1 <= disagree && 1 <= missing && sum == u128::from(WHOLE_FIELD) {
        Some([agree as u16, disagree as u16, missing as u16, 0])
    } else {
        None
    }
}

fn four_shares(agree: u64, disagree: u64, missing: u64, often: u64) -> Option<[u16; 4]>
    ensures { result ≡ shares_or_none true (agree ∷ disagree ∷ missing ∷ often ∷ []) }
{
    let sum = u128::from(agree)
        + (u128::from(disagree) + (u128::from(missing) + u128::from(often)));
    if 1 <= agree && 1 <= disagree && 1 <= missing && 1 <= often && sum == u128::from(WHOLE_FIELD) {
        Some([agree as u16, disagree as u16, missing as u16, often as u16])
    } else {
        None
    }
}
