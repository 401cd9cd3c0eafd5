//! Whether written files are what a run over the same inputs may write: its rule, links and prices, whoever wrote them.
#![tactic(auto)]

mod laws;
mod links;
mod near;
mod prices;
mod refutation;
mod rule;
mod sums;
mod written;

pub use laws::{verified_is_greatest, verified_means, written_is_short, written_is_verified};
pub use refutation::Refutation;
pub use written::{Written, verify_written};
