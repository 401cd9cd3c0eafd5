//! Texts of bytes, lists of them, and want of memory.
#![tactic(auto)]

mod piece;
mod text;

pub use piece::Piece;
pub use text::{NoMemory, Text, TextList, push_number};
