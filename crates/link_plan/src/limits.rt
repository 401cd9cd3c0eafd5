// The ranges of the settings' keys, each written once. Limits of more than a plan are `link_limits`'.

/// The most bytes of the name of a column.
pub const MOST_LABEL_BYTES: usize = 255;

/// The most bytes of a mark of a missing value.
pub const MOST_MARK_BYTES: usize = 64;

/// The most bytes of the name of a field.
pub const MOST_FIELD_NAME_BYTES: usize = 32;

/// The most marks of a missing value.
pub const MOST_MARKS: usize = 50;

/// The most titles, and the most suffixes.
pub const MOST_LISTED_WORDS: usize = 200;

/// The most pairs of words that are replaced in names, and in places.
pub const MOST_WORD_PAIRS: usize = 1000;

/// The most passes.
pub const MOST_PASSES: usize = 8;

/// The most parts of a pass.
pub const MOST_PARTS: usize = 4;

/// The most letters of a canon that has a number of them.
pub const MOST_LETTERS: u8 = 20;

/// The most days that two dates that agree may be apart.
pub const MOST_DAYS: u32 = 36_500;

/// The most years that two years that agree may be apart.
pub const MOST_YEARS: u32 = 100;

/// The least rare number: an agreement on a value has a record of each file.
pub const LEAST_RARE: u32 = 2;

/// The greatest rare number: the records of both files.
pub const MOST_RARE: u32 = 200_000;
