//! Fields and rows as RFC 4180 writes them: what is written reads as the rows that it was.
#![tactic(auto)]

mod fields;
mod laws;
mod numbers;
mod rows;

pub use fields::{calls_for_quotes, push_field};
pub use laws::rows_read_again;
pub use numbers::{decimals_are_read, read_decimal};
pub use rows::{digits_of, push_row};
