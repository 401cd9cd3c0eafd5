//! The decision rule of a plan, its decisions on all compared pairs of two files (Fellegi and Sunter 1969), made in one walk, and
//! the lines of these pairs, whose rows are kept for those who write them.
#![tactic(auto)]

mod choice;
mod comparisons;
mod deciding;
mod id_counts;
mod lines;
mod pair_rule;
mod places;
mod plan_shares;
mod rows;
mod rule_laws;
mod table;
mod walking;

pub use choice::decide_in_cell;
pub use comparisons::comparisons_of;
pub use deciding::{Decided, decide_pairs};
pub use lines::pair_lines;
pub use pair_rule::PairRule;
pub use plan_shares::{counted_shares, given_shares, shares_of_counts};
pub use rows::DecidedRow;
pub use rule_laws::{
    is_the_rule, rare_counts, rule_has_patterns, same_patterns, shares_have_a_rule,
    the_rule_is_filled,
};
pub use table::rule_of_shares;
