//! Comparison patterns: the outcomes of all fields of two rows as one number, and the weight of an outcome.
#![tactic(auto)]

mod laws;
mod numbers;
mod shapes;
mod weight;

pub use laws::chances;
pub use numbers::{digit, pattern_over, shape_of};
pub use shapes::{outcome_count, outcome_of, pattern_count, patterns_of};
pub use weight::eighth_weight;
