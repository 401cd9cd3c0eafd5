//! Counts of the outcomes of each field among the reviewed pairs of a sample, and the shares of counted outcomes, in 1,024ths.
#![tactic(auto)]

mod counts;
mod remainders;
mod reviewed;
mod rows;

pub use counts::Counts;
pub use remainders::{shares, shares4};
pub use rows::count_sample_over;
