//! The commands over a store and a sink: which command the words name, what it loads, what is due, and
//! why it is refused.
#![tactic(auto)]

mod after_run;
mod command;
mod duplicates_settings;
mod filled_rule;
mod frontier_settings;
mod generate;
mod keys;
mod limits;
mod many_settings;
mod meaning;
mod migrate_settings;
mod pairs_columns;
mod review_settings;
mod run_settings;
mod settings_commands;
mod verify_settings;
mod words;

pub use after_run::run_then_verify;
pub use command::{linkage, perform};
pub use filled_rule::commands_go_by_filled_rule;
pub use limits::limits_are_these;
pub use meaning::verify_tells;
pub use settings_commands::printed_rule_is_least;
