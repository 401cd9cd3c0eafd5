//! Forms of standard values: civil days, the texts of days, dates as people write them, characters and
//! initials of a text, the canons by which values are compared or blocked, and blocking passes.
#![tactic(auto)]

mod canons;
mod days;
mod first;
mod initials;
mod passes;
mod written;

pub use canons::{Canon, CanonText, CompareKind, End, bytes_of, canon_text, compares_days};
pub use days::{Civil, civil_of, day_of, day_read_again, day_text, read_iso};
pub use first::first_chars;
pub use initials::initials_text;
pub use passes::{Part, Pass, PassList};
pub use written::read_date;
