// The ends of the lines of pairs, each made once.
ghost use Rattle.std.specs.Prelude.{◌≡◌, ◌<◌, ◌++◌, All, Bool, IfOk, IsTrue, List, OnOk, length, slice_index_or};
ghost use Rattle.link_report.specs.LineParts.{IsEnd, KeepsEnd, pair_end, two_fields};
ghost use Rattle.link_report.specs.PairsText.{decision_word, printed_verdict};
ghost use Rattle.link_report.specs.LinksText.{outcome_letters};
ghost use Rattle.link_report.specs.declared.ends.LineEnd.{LineEnd as End};
ghost use Rattle.patterns.specs.Patterns.{pattern_count_by, rare_of};

use crate::lines::{END_BYTES, append_line};
use crate::open::PairRow;
use crate::rule::letters_of;
use csv_rows::push_row;
use itoa::Buffer;
use link_base::{Decision, NoMemory, PairAt, Piece, Shape, Verdict};
use patterns::pattern_count;
use std::alloc::Global;
use std::marker::Model;

// The word of a decision.
fn word_of(decision: &Decision) -> &[u8]
    ensures { result.now ≡ decision_word decision.now }
{
    match decision {
        Decision::Link => b"link",
        Decision::Possible => b"possible",
        Decision::NonLink => b"nonlink",
    }
}

// The word of a verdict, and nothing where there is none.
fn verdict_of(verdict: &Option<Verdict>) -> &[u8]
    ensures { result.now ≡ printed_verdict verdict.now }
{
    match verdict {
        None => b"",
        Some(Verdict::Link) => b"link",
        Some(Verdict::NonLink) => b"nonlink",
        Some(Verdict::Undecided) => b"open",
    }
}

// Appends the end of the line of a pair whose pattern has these letters.
fn push_end<'t>(text: &mut Vec<u8>, letters: &'t [u8], row: &'t PairRow) -> Result<(), NoMemory>
    ensures { (rares : List Bool) → letters.now ≡ outcome_letters rares row.now.pattern
        → OnOk result (text.new.items ≡ text.old.items ++ pair_end rares row.now) }
{
    let mut pattern = Buffer::new();
    let mut weight = Buffer::new();
    push_row(
        text,
        &[
            b"",
            pattern.format(row.pattern).as_bytes(),
            letters,
            weight.format(row.weight).as_bytes(),
            word_of(&row.decision),
            verdict_of(&row.verdict),
        ],
    )
}

// The end of the line of a pair, as it was written for that pair.
#[derive(Drop)]
pub(crate) struct LineEnd {
    of: PairRow,
    // The end, and behind it as many bytes as are copied with one that is short.
    text: Vec<u8>,
    // How many bytes the end has.
    bytes: usize,
}

// The end of the line of a pair.
fn line_end(alloc: Global, shape: &Shape, row: &PairRow) -> Result<LineEnd, NoMemory>
    requires { row.now.pattern < pattern_count_by (rare_of shape.now) }
    ensures of { IfOk result (λ end. end.of ≡ row.now) }
    ensures right { IfOk result (IsEnd (rare_of shape.now)) }
{
    let letters = letters_of(alloc, shape, row.pattern)?;
    let mut text = Vec::new(alloc);
    push_end(&mut text, &letters, row)?;
    let bytes = text.len();
    text.extend_from_slice(&[0; END_BYTES])?;
    Ok(LineEnd {
        of: *row,
        text,
        bytes,
    })
}

// Whether two pairs have the same decision.
fn same_decision(x: Decision, y: Decision) -> bool
    ensures { IsTrue result → x ≡ y }
{
    match x {
        Decision::Link => matches!(y, Decision::Link),
        Decision::Possible => matches!(y, Decision::Possible),
        Decision::NonLink => matches!(y, Decision::NonLink),
    }
}

// Whether the lines of two pairs have the same end.
fn same_end(x: &PairRow, y: &PairRow) -> bool
    ensures { IsTrue result → (rares : List Bool) → pair_end rares x.now ≡ pair_end rares y.now }
{
    x.pattern == y.pattern
        && x.weight == y.weight
        && same_decision(x.decision, y.decision)
        && x.verdict == y.verdict
}

// An end for each comparison pattern.
fn ends_by_pattern(alloc: Global, shape: &Shape) -> Result<Vec<LineEnd>, NoMemory>
    ensures count { IfOk result (λ ends. length ends.items ≡ pattern_count_by (rare_of shape.now)) }
    ensures right { IfOk result (λ ends. All (IsEnd (rare_of shape.now)) ends.items) }
{
    let mut ends = Vec::new(alloc);
    for pattern in 0..pattern_count(shape) {
        let row = PairRow {
            at: PairAt { a: 0, b: 0 },
            pattern,
            weight: 0,
            decision: Decision::NonLink,
            verdict: None,
        };
        let end = line_end(alloc, shape, &row)?;
        ends.push(end)?;
    }
    Ok(ends)
}

// Makes a new end for a pair's pattern.
#[inline(never)]
fn replace_end(
    ends: &mut Vec<LineEnd>,
    alloc: Global,
    shape: &Shape,
    row: PairRow,
) -> Result<(), NoMemory>
    requires pattern { row.pattern < pattern_count_by (rare_of shape.now) }
    requires count { length ends.old.items ≡ pattern_count_by (rare_of shape.now) }
    requires right { All (IsEnd (rare_of shape.now)) ends.old.items }
    ensures count { length ends.new.items ≡ length ends.old.items }
    ensures right { All (IsEnd (rare_of shape.now)) ends.new.items }
    ensures end { OnOk result ((d : End) → KeepsEnd (pair_end (rare_of shape.now) row) (slice_index_or ends.new.items row.pattern d)) }
{
    let end = line_end(alloc, shape, &row)?;
    ends[usize::from(row.pattern)] = end;
    Ok(())
}

// Makes the end of a pair's pattern that of the pair.
fn renew(
    ends: &mut Vec<LineEnd>,
    alloc: Global,
    shape: &Shape,
    row: PairRow,
) -> Result<(), NoMemory>
    requires pattern { row.pattern < pattern_count_by (rare_of shape.now) }
    requires count { length ends.old.items ≡ pattern_count_by (rare_of shape.now) }
    requires right { All (IsEnd (rare_of shape.now)) ends.old.items }
    ensures count { length ends.new.items ≡ length ends.old.items }
    ensures right { All (IsEnd (rare_of shape.now)) ends.new.items }
    ensures end { OnOk result ((d : End) → KeepsEnd (pair_end (rare_of shape.now) row) (slice_index_or ends.new.items row.pattern d)) }
{
    if same_end(&ends[usize::from(row.pattern)].of, &row) {
        return Ok(());
    }
    replace_end(ends, alloc, shape, row)
}

/// The ends of lines by comparison pattern, each as it was last written. Contracts see which fields may be rare.
#[derive(Drop)]
pub(crate) struct LineEnds {
    alloc: Global,
    shape: Shape,
    ends: Vec<LineEnd>,
}

impl Model for LineEnds {
    ghost use Rattle.std.specs.Prelude.{◌≡◌, All, Bool, List, length};
    ghost use Rattle.link_report.specs.LineParts.{IsEnd};
    ghost use Rattle.patterns.specs.Patterns.{pattern_count_by, rare_of};

    ghost Value = { List Bool };

    ghost view = { λ e. rare_of e.shape };

    ghost invariant = { λ e. (length e.ends.items ≡ pattern_count_by (rare_of e.shape)) × All (IsEnd (rare_of e.shape)) e.ends.items };
}

impl LineEnds {
    /// The ends of pairs with patterns of this shape.
    pub(crate) fn new(alloc: Global, shape: &Shape) -> Result<LineEnds, NoMemory>
        ensures { IfOk result (λ ends. ends ≡ rare_of shape.now) }
    {
        let ends = ends_by_pattern(alloc, shape)?;
        Ok(LineEnds {
            alloc,
            shape: *shape,
            ends,
        })
    }

    /// Appends the line of a pair with its two ids as fields. The end of the line is made anew only where it is not that of the last
    /// pair with this pattern.
    #[inline(always)]
    pub(crate) fn append_line(
        &mut self,
        text: &mut Vec<u8>,
        first: Piece<'_>,
        second: Piece<'_>,
        row: &PairRow,
    ) -> Result<(), NoMemory>
        requires { row.now.pattern < pattern_count_by self.old }
        ensures same { self.new ≡ self.old }
        ensures text { OnOk result (text.new.items ≡ text.old.items ++ two_fields first.entry second.entry ++ pair_end self.old row.now) }
    {
        renew(&mut self.ends, self.alloc, &self.shape, *row)?;
        let end = &self.ends[usize::from(row.pattern)];
        append_line(text, first, second, Piece::within(&end.text, 0, end.bytes))
    }
}
