//! How two values of a field compare.
#![tactic(auto)]

mod comparator;
mod ids;
mod laws;
mod tables;

pub use comparator::Comparator;
pub use ids::{FieldById, IdValue, SameId};
pub use laws::{same_outcomes, value_laws};
pub use tables::IdTable;
