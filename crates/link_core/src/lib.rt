//! From the bytes of files to results.
#![tactic(auto)]

mod column_numbers;
mod column_pairs;
mod column_rows;
mod decisions;
mod duplicates;
mod many;
mod name_keys;
mod pairs;
mod preparing;
mod results;
mod review;
mod row_text;
mod rules;
mod verify;

pub use candidate_links::Capacities;
pub use column_pairs::pair_rows;
pub use decisions::decide_all;
pub use duplicates::duplicate_lines;
pub use many::{capacities_in_file, many_lines};
pub use name_keys::key_lines;
pub use pair_decisions::Decided;
pub use pairs::pair_ids;
pub use preparing::{Prepared, prepare, prepare_texts};
pub use results::{RunResult, candidates, finish};
pub use review::{add_verdicts, journal_in_files, journal_lines, open_lines, open_rows};
pub use rules::{PlanShares, counted, frontier_lines, rule_lines};
pub use verify::{Verification, run_is_verified, verify_files};
pub use written_check::Written;
