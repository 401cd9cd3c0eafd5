//! Readers of the keys of a TOML table: each gives a value, or the first fault with the path of its key.
#![tactic(auto)]

mod fault;
mod keys;
mod laws;
mod lists;
mod place;
mod readers;
mod values;

pub use fault::KeyFault;
pub use keys::{Keys, is_listed};
pub use laws::{keys_ascend, least_unknown_key};
pub use lists::{Items, Rows};
pub use place::Place;
pub use readers::{Choices, Element, Reader, Row};
pub use values::{Choice, Truth, Whole, named_in, whole_number};
