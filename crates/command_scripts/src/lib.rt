//! A command over a store and a sink as its script: steps, each a load of a name or a value that is computed of what was loaded, and what
//! is due of the value that they give, a text for `out` or puts; the loads, and the ends.
#![tactic(auto)]

mod ends;
mod load;

pub use ends::{Ended, Output, print, print_lines, print_text, put_each};
pub use load::{load_file, load_whole, load_written};
