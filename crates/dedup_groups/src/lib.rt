//! Groups of records that chains of links join, as a forest that shows them: each record with the least record of its group, and
//! with the one that it was reached from (connected components; Tarjan 1975).
#![tactic(auto)]

mod checking;
mod forest;
mod laws;
mod neighbours;
mod search;
mod writing;

pub use checking::check_groups;
pub use forest::Groups;
pub use laws::{forest_leaders, leaders_tell_groups};
pub use search::groups;
pub use writing::groups_text;
