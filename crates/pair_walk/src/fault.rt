// Why there are no pairs.
use thiserror::Error;

/// Why there are no pairs: there are more than they may be, or memory is wanted.
#[derive(Clone, Copy, Debug, PartialEq, Eq, Error)]
pub enum WalkFault {
    #[error("more than {limit} pairs")]
    TooManyPairs { limit: u64 },
    #[error("want of memory")]
    NoMemory,
}
