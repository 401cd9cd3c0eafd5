//! Distinct texts in one region of bytes, each named by its place, with room that can be reserved.
#![tactic(auto)]

mod chains;
mod hashes;
mod id;
mod laws;
mod order;
mod pool;
mod same_text;
mod table;

pub use hashes::hash;
pub use id::{Id, MaybeId};
pub use laws::reserved_room;
pub use pool::{Pool, PoolFault};
