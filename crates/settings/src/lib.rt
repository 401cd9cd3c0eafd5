//! The settings of a run: the bytes of a TOML file to a plan, or the first key at fault.
#![tactic(auto)]

mod canons;
mod fields;
mod kinds;
mod passes;
mod shares;
mod terms;
mod texts;
mod top;
mod word_tables;
mod words;

pub use settings_readers::least_unknown_key;
pub use texts::is_output;
pub use top::read_settings;
