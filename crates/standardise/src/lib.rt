//! Standard values of names, places and dates as people write them: names without accents, titles and
//! apostrophes, in capitals, and dates as days. Unicode decides what a letter, a mark and white space
//! are, and its canonical decomposition comes first.
#![tactic(auto)]

mod cleaning;
mod date_read;
mod names;
mod outline;
mod pairs;
mod tables;
mod white_space;
mod word_set;
mod words;

pub use date_read::{DateRead, std_date};
pub use names::{TextRoom, std_text, std_text_in};
pub use tables::TextTables;
