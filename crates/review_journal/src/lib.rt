//! The journal of clerical review: dated and signed verdicts on pairs of records, in order; and the journal and
//! batches of new verdicts as files (RFC 4180).
#![tactic(auto)]

mod batch;
mod entries;
mod entry;
mod file_laws;
mod idle;
mod journal;
mod new_verdicts;
mod possible;
mod reading;
mod row;
mod steps;
mod text;
mod words;

pub use batch::{NewVerdict, Verdicts};
pub use entry::Entry;
pub use file_laws::{
    first_version_is_single, no_verdict_is_lost, read_again, single_verdicts_stand,
};
pub use idle::idle_entries;
pub use journal::Journal;
pub use new_verdicts::read_verdicts;
pub use reading::read_journal;
pub use text::journal_text;
