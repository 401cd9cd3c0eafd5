//! The plain types of record linkage: texts, standard values and files, the plan's kinds, the rule's
//! cells, candidates, and the faults of a run.
#![tactic(auto)]

mod fault;
mod ids;
mod piece;
mod plan;
mod region;
mod rising_ids;
mod row;
mod rows;
mod rows_writer;
mod rule;
mod shares;
mod sides;
mod standard;
mod tables;

pub use fault::{Fault, FileRole, push_fault, status_of};
pub use ids::IdSet;
pub use link_texts::{NoMemory, Piece, Text, TextList, push_number};
pub use plan::{DateForm, FieldSort};
pub use region::TextRegion;
pub use row::{Row, ValueRef};
pub use rows::StdRows;
pub use rows_writer::RowsWriter;
pub use rule::{Candidate, Decision, Levels, Outcome, PairAt, RuleCell, RuleTable, Step, Verdict};
pub use shares::{FieldShares, Shape};
pub use sides::Sides;
pub use standard::{StdFile, Value, distinct_ids};
pub use tables::{Tables, WordPair, WordPairs};
