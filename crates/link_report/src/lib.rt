//! The texts that the program prints and writes: lines of comma-separated fields (RFC 4180).
#![tactic(auto)]

mod ends;
mod first;
mod frontier;
mod head;
mod id_fields;
mod ids;
mod lines;
mod links;
mod open;
mod pairs;
mod prices;
mod reading;
mod report;
mod rule;

pub use first::{first_lines, head_of_report};
pub use frontier::frontier_text;
pub use id_fields::{IdFields, usual_id_bytes};
pub use ids::IdsWriter;
pub use links::{links_text, source_of};
pub use open::{PairRow, open_text};
pub use pairs::PairsWriter;
pub use prices::prices_text;
pub use reading::{
    LINKS_HEADER, PRICES_HEADER, RULE_HEADER, ReadRows, has_fields, read_rows, rows_begun,
    texts_read_again,
};
pub use report::{Dropped, Report, report_text};
pub use rule::{letters_of, rule_text};
