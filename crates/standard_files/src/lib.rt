//! The two files of a plan in standard values, and these values in a pool: each distinct text once, and rows of ids to compare.
#![tactic(auto)]

mod canons;
mod file_values;
mod files;
mod keys;
mod known;
mod pool_laws;
mod pooling;
mod row;
mod sorts;
mod sources;
mod taker;
mod texts;
mod values;

pub use files::{StandardFile, StandardPair, read_files};
pub use pool_laws::distinct_taken;
pub use pooling::{PooledValues, pool_values};
pub use sorts::TextSort;
