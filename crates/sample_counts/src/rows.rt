// The counts of a sample.
ghost use Rattle.std.specs.Prelude.{◌≡◌, ◌≤◌, ◌<◌, All, IfOk, List, Ok, length, map};
ghost use Rattle.file_reader.specs.Table.{records_in};
ghost use Rattle.link_base.specs.Answers.{and_then};
ghost use Rattle.link_base.specs.Fault.{IsAnswer};
ghost use Rattle.patterns.specs.Patterns.{pattern_count_by, AreSides};
ghost use Rattle.sample_counts.specs.Counts.{AreOutcomeCounts, counts_by, judged_by};
ghost use Rattle.sample_counts.specs.declared.reviewed.Reviewed.{Reviewed as ReviewedPair};
ghost use Rattle.sample_counts.specs.Sample.{IsInFiles, sample_of};

use crate::counts::{Counts, Judged};
use crate::reviewed::{Reviewed, read_sample};
use comparators::Comparator;
use link_base::{Fault, NoMemory, Sides, StdFile};
use link_limits::MOST_FIELDS;
use patterns::{pattern_over, shape_of};
use std::alloc::Global;

// The reviewed pairs with their patterns.
fn judge<C: Comparator, T: Sides<C::Side>>(
    alloc: Global,
    sample: &[Reviewed],
    kinds: &[C],
    sides_a: &T,
    sides_b: &T,
) -> Result<Vec<Judged>, NoMemory>
    requires few { length kinds.now ≤ MOST_FIELDS }
    requires sides_a { All (AreSides C.is_valid kinds.now) (T.all sides_a.now) }
    requires sides_b { All (AreSides C.is_valid kinds.now) (T.all sides_b.now) }
    requires in_files { All (IsInFiles (length (T.all sides_a.now)) (length (T.all sides_b.now))) sample.now }
    ensures rows { IfOk result (λ rows. rows.items ≡ map (judged_by C.is_rare C.outcome_of kinds.now (T.all sides_a.now) (T.all sides_b.now)) sample.now) }
    ensures in_shape { IfOk result (λ rows. All (λ (row : Judged). row.pattern < pattern_count_by (map C.is_rare kinds.now)) rows.items) }
{
    let mut rows = Vec::new(alloc);
    for pair in sample {
        let of_a = sides_a.sides(pair.a);
        let of_b = sides_b.sides(pair.b);
        let pattern = pattern_over(kinds, of_a, of_b);
        rows.push(Judged {
            matched: pair.matched,
            pattern,
        })?;
    }
    Ok(rows)
}

/// The counts of a sample by 1 to 6 comparators of sides, or the first fault: of the table, then row by row a bad status,
/// an unknown id of A, one of B, a pair that an earlier row names, and then that no pair is matched, or none unmatched. The
/// sides stand for the records of A and B, one row of them for each record.
pub fn count_sample_over<C: Comparator, T: Sides<C::Side>>(
    alloc: Global,
    bytes: &[u8],
    a: &StdFile,
    b: &StdFile,
    kinds: &[C],
    sides_a: &T,
    sides_b: &T,
) -> Result<Counts, Fault>
    requires some { 1 ≤ length kinds.now }
    requires few { length kinds.now ≤ MOST_FIELDS }
    requires rows_a { length (T.all sides_a.now) ≡ length a.now }
    requires rows_b { length (T.all sides_b.now) ≡ length b.now }
    requires sides_a { All (AreSides C.is_valid kinds.now) (T.all sides_a.now) }
    requires sides_b { All (AreSides C.is_valid kinds.now) (T.all sides_b.now) }
    ensures fields { IfOk result (λ counts. counts.rares ≡ map C.is_rare kinds.now) }
    ensures answer { IsAnswer (and_then (sample_of a.now b.now (records_in 44 bytes.now))
        (λ sample. Ok (counts_by C.is_rare C.outcome_of kinds.now (T.all sides_a.now) (T.all sides_b.now) sample))) result }
    ensures outcomes { IfOk result (λ counts. (sample : List ReviewedPair) → sample_of a.now b.now (records_in 44 bytes.now) ≡ Ok sample
        → AreOutcomeCounts C.outcome_of kinds.now (T.all sides_a.now) (T.all sides_b.now) sample counts) }
{
    let sample = match read_sample(alloc, bytes, a, b) {
        Ok(sample) => sample,
        Err(fault) => return Err(fault),
    };
    match judge(alloc, &sample, kinds, sides_a, sides_b) {
        Ok(rows) => Ok(Counts::new(shape_of(kinds), rows)),
        Err(NoMemory) => Err(Fault::NoMemory),
    }
}
