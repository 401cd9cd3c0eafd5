//! What a run goes by: the plan, its ranges, and the plan of a file with itself.
#![tactic(auto)]

mod limits;
mod plan;
mod terms;
mod within;

pub use limits::{
    LEAST_RARE, MOST_DAYS, MOST_FIELD_NAME_BYTES, MOST_LABEL_BYTES, MOST_LETTERS,
    MOST_LISTED_WORDS, MOST_MARK_BYTES, MOST_MARKS, MOST_PARTS, MOST_PASSES, MOST_RARE,
    MOST_WORD_PAIRS, MOST_YEARS,
};
pub use plan::{FieldList, FieldPlan, Plan};
pub use terms::{MOST_AWARD, MOST_SEED, TERM_KEYS, TermSource, Terms};
