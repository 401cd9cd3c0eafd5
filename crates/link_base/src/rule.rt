// Outcomes of comparison, the cells of a decision rule, decisions, and candidates for links.
ghost use Rattle.std.specs.Prelude.{◌≡◌, ◌≤◌, All, IfOk, replicate};
ghost use Rattle.link_base.specs.Rule.{IsWithinRanges, empty_cell};

use link_limits::MOST_PATTERNS;
use link_texts::NoMemory;
use std::alloc::Global;

/// What the comparison of a field comes to. The order is that of the digits of a comparison pattern.
#[derive(Clone, Copy)]
pub enum Outcome {
    /// Both values are present and alike.
    Agree,
    /// Both values are present and not alike.
    Disagree,
    /// A value is not present.
    Missing,
    /// Both values are present and alike, and the value is rare in the two files (Newcombe et al. 1959).
    Rare,
}

/// The decision on a pair (Fellegi and Sunter 1969, section 2).
#[derive(Clone, Copy)]
pub enum Decision {
    Link,
    Possible,
    NonLink,
}

/// What clerical review says of a pair.
#[derive(Clone, Copy, PartialEq, Eq)]
pub enum Verdict {
    Link,
    NonLink,
    /// Still open.
    Undecided,
}

/// Whether a verdict stands alone, waits for a second reviewer, or confirms a first one.
#[derive(Clone, Copy, PartialEq, Eq)]
pub enum Step {
    Single,
    First,
    Confirm,
}

/// The positions of a pair, from 0, in A and in B.
#[derive(Clone, Copy)]
pub struct PairAt {
    pub a: u32,
    pub b: u32,
}

/// A comparison pattern in a decision rule: its chances `m` among matched and `u` among unmatched pairs
/// over 1,024 to the number of fields, its weight in eighths of a bit, from `LEAST_WEIGHT` to
/// `GREATEST_WEIGHT`, and how often it is a link and a non-link, in 65,536ths that add up to at most
/// 65,536. A table keeps the ranges of its cells; a call that takes a cell alone asks for them.
#[derive(Clone, Copy)]
pub struct RuleCell {
    pub pattern: u16,
    pub m: u64,
    pub u: u64,
    pub weight: i32,
    pub link: u32,
    pub nonlink: u32,
}

/// The cells of a decision rule, each within its ranges.
#[derive(Drop)]
pub struct RuleTable {
    pub cells: Vec<RuleCell>,
    pub ghost in_range: { All IsWithinRanges cells.items },
}

impl RuleTable {
    /// A table of so many cells of zeros, to be filled.
    pub fn with_patterns(alloc: Global, count: u16) -> Result<RuleTable, NoMemory>
        requires some { 3 ≤ count }
        requires few { count ≤ MOST_PATTERNS }
        ensures { IfOk result (λ table. table.cells.items ≡ replicate count empty_cell) }
    {
        let cell = RuleCell {
            pattern: 0,
            m: 0,
            u: 0,
            weight: 0,
            link: 0,
            nonlink: 0,
        };
        let cells = vec![in alloc; cell; count as usize]?;
        Ok(RuleTable { cells })
    }

    /// The cells.
    pub fn cells(&self) -> &[RuleCell]
        ensures all { result.now ≡ self.now.cells.items }
        ensures in_range { All IsWithinRanges result.now }
    {
        &self.cells
    }
}

/// The attained error levels of a rule and its chances of a possible link among matched and unmatched
/// pairs, as four sums over one denominator (Fellegi and Sunter 1969, section 2).
#[derive(Clone, Copy, PartialEq, Eq)]
pub struct Levels {
    pub denominator: u128,
    pub mu: u128,
    pub lambda: u128,
    pub possible_m: u128,
    pub possible_u: u128,
}

/// A pair of records, by position, that may be linked, with its weight in eighths of a bit, its value,
/// and whether it is a candidate by review.
#[derive(Clone, Copy)]
pub struct Candidate {
    pub a: u32,
    pub b: u32,
    pub weight: i32,
    pub value: i32,
    pub reviewed: bool,
}
