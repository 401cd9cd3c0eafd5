//! The frontier of levels: how the chances of a possible link fall as the asked level of links grows.
#![tactic(auto)]

mod borders;
mod laws;
mod levels;

pub use laws::filled_levels;
pub use levels::{FrontierRow, frontier};
