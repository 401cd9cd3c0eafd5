//! The decision rule of Fellegi and Sunter (1969): the order of the comparison patterns by m/u, the two cuts at exact
//! levels, and the theorem that no randomised rule with levels at most its own leaves less to clerical review.
#![tactic(auto)]

mod border;
mod choice;
mod cuts;
mod fill;
mod laws;
mod order;
mod rule;
mod sums;
mod unit;

pub use border::BorderWords;
pub use choice::decide;
pub use laws::{exchange, filled};
pub use rule::cut_rule;
pub use sums::attained;
