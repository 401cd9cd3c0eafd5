//! What several commands load and find at their front: a plan and the two files that it names, the shares of its fields, the decisions of
//! its rule, and its journal.
#![tactic(auto)]

mod front;
mod reviewed;

pub use front::{
    Described, Inputs, Shared, file_name, load_both, load_described, load_plan, load_prepared,
    load_shared, prepare_files,
};
pub use reviewed::{
    DecidedPlan, Reviewed, ReviewedSettings, load_decisions, load_journal, load_journal_plan,
    load_reviewed, load_reviewed_settings, put_journal,
};
