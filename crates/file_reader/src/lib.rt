//! Tables of CSV files (RFC 4180): the records of a text, and the needed columns of those under a header, or the first fault.
#![tactic(auto)]

mod fields;
mod header;
mod known;
mod laws;
mod layout;
mod records;
mod room;
mod rows;
mod table;
mod taker;

pub use fields::field_of;
pub use header::has_column;
pub use known::{known_pair, known_record};
pub use laws::{first_fault, sound_table, whole_table};
pub use layout::Layout;
pub use records::Records;
pub use rows::{read_rows, read_table};
pub use table::Table;
pub use taker::{RowFields, RowTaker, TableIds};
