//! The candidates for links: the links of a decision rule and those of clerical review (Fellegi and Sunter 1969, section 2),
//! the links chosen among them with the prices that certify them, and what was dropped and why; the capacities in
//! a file, and the links chosen within them, with their prices (the transportation problem: Hitchcock 1941).
#![tactic(auto)]

mod candidates;
mod capacities;
mod choice;
mod choice_within;
mod laws;
mod merging;
mod prices;
mod reading;

pub use candidates::candidates_among;
pub use capacities::Capacities;
pub use choice::{ChosenLinks, choose_links};
pub use choice_within::{LinksWithin, choose_within};
pub use laws::{candidate_prices_are_bounded, candidates_are_bounded};
pub use reading::read_capacities;
