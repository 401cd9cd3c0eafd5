//! The limits of a run that more than one layer speaks of, each written once: code, contracts and
//! definitions cite these names.
#![tactic(auto)]

/// The most bytes of a file that is loaded, and of a journal that is written: 64 MiB.
pub const MOST_FILE_BYTES: u64 = 67_108_864;

/// The most bytes of a written rule, of written links and of written prices as they are checked: 128 MiB.
pub const MOST_WRITTEN_BYTES: u64 = 134_217_728;

/// The most fields of a header.
pub const MOST_COLUMNS: u32 = 64;

/// The most bytes of a needed field.
pub const MOST_FIELD_BYTES: usize = 255;

/// The most bytes of a word that is replaced or dropped in names and places, and of one that stands in its place.
pub const MOST_WORD_BYTES: usize = 32;

/// The most bytes of a file's name.
pub const MOST_NAME_BYTES: usize = 255;

/// The most rows of A, of B, of a sample, of a batch of verdicts and of a file of capacities.
pub const MOST_ROWS: u32 = 100_000;

/// The most entries of a journal of verdicts.
pub const MOST_ENTRIES: u32 = 1_000_000;

/// The most fields of a comparison pattern.
pub const MOST_FIELDS: u8 = 6;

/// The most comparison patterns: four outcomes in each of six fields.
pub const MOST_PATTERNS: u16 = 4096;

/// The least weight of a comparison pattern, in eighths of a bit: -80 in each of six fields.
pub const LEAST_WEIGHT: i32 = -480;

/// The greatest weight of a comparison pattern, in eighths of a bit: 79 in each of six fields.
pub const GREATEST_WEIGHT: i32 = 474;

/// The most compared pairs of a run, and so the most candidates.
pub const MOST_PAIRS: u64 = 2_000_000;

/// The most bytes that the distinct texts of the two files of a run may have together: 192 MiB.
pub const MOST_DISTINCT_BYTES: u64 = 201_326_592;

/// The greatest limit that a pool may have, so that each of its places is a `u32`: 1 GiB.
pub const MOST_POOL_LIMIT: u64 = 1_073_741_824;

/// The greatest size of a candidate's value and of a dual price.
pub const MOST_VALUE: u32 = 1_000_000;

/// The greatest capacity of a record of B.
pub const MOST_CAPACITY: u32 = 1_000;

/// An error level is asked in parts of this many: parts per million.
pub const PER_MILLION: u32 = 1_000_000;

/// The whole of a rule's shares in a comparison pattern: link, possible and non-link add up to it.
pub const WHOLE_RULE: u32 = 65_536;

/// The whole of the shares of a field's outcomes.
pub const WHOLE_FIELD: u16 = 1_024;
