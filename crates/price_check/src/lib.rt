//! One-to-one lists of candidates for links, what makes such a list the greatest, also within capacities, the laws of the
//! certificate, and whether prices certify a list.
#![tactic(auto)]

mod capacity;
mod capacity_laws;
mod certificate;
mod first;
mod forest;
mod laws;
mod numbering;
mod places;
mod rising_order;
mod verdict;

pub use capacity::check_capacity;
pub use capacity_laws::{certified_within_is_greatest, single_capacities};
pub use certificate::{price_total, value_total};
pub use first::{candidate_at, end_of_near, first_uncovered};
pub use laws::{
    certificate_is_tight, certified_is_greatest, greatest_value_is_least,
    parts_together_are_certified, prices_are_bounded,
};
pub use numbering::{PartNumbers, part_numbers};
pub use places::first_reused;
pub use rising_order::are_rising;
pub use verdict::{Reason, Verified};
