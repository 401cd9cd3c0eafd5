// What an auditor is told of written files.
ghost use Rattle.std.specs.Prelude.{◌≡◌, ◌++◌, ◌≤◌, [], Err, IfOk, OnOk, decimal, length};
ghost use Rattle.std.specs.Fmt.{signed_decimal};
ghost use Rattle.link_core.specs.Rules.{IsDecidedIn, rule_in};
ghost use Rattle.link_core.specs.Results.{IsDecidedFor};
ghost use Rattle.link_core.specs.Verify.{RunIsVerified, TellsVerdict, line_of, reason_text, verified_in};
ghost use Rattle.link_limits.specs.declared.TheConstants.{MOST_WRITTEN_BYTES};
ghost use Rattle.link_plan.specs.Ranges.{KeepsRanges};
ghost use Rattle.written_check.specs.LinkRows.{IsRefutationWithin};
ghost use Rattle.written_check.specs.Verified.{texts_in};
ghost use Rattle.written_check.specs.declared.refutation.Refutation.TheVariants as refutation;

use crate::preparing::Prepared;
use crate::results::candidates;
use crate::row_text::push_row;
use candidate_links::candidates_are_bounded;
use itoa::Buffer;
use link_base::{NoMemory, PairAt, StdFile, Text};
use link_plan::Plan;
use pair_decisions::Decided;
use review_journal::Journal;
use std::alloc::Global;
use written_check::{Refutation, Written, verify_written, written_is_short, written_is_verified};

/// Whether written files prove their links, and the line that says so: `yes`, or `no: ` and the first reason.
#[derive(Drop)]
pub struct Verification {
    pub proved: bool,
    pub line: Text,
}

// Appends the reason of a row.
fn push_place(text: &mut Vec<u8>, name: &[u8], row: u32) -> Result<(), NoMemory>
    ensures { OnOk result (text.new.items ≡ text.old.items ++ (name.now ++ decimal row)) }
{
    text.extend_from_slice(name)?;
    push_row(text, u64::from(row))
}

// Appends the reason of a candidate that is not covered.
fn push_uncovered(text: &mut Vec<u8>, at: PairAt, a: &StdFile, b: &StdFile) -> Result<(), NoMemory>
    requires within { IsRefutationWithin (length a.now) (length b.now) (refutation.Uncovered at) }
    ensures { OnOk result (text.new.items ≡ text.old.items ++ reason_text a.now b.now (refutation.Uncovered at)) }
{
    text.extend_from_slice(b"uncovered ")?;
    text.extend_from_slice(a.id(at.a))?;
    text.extend_from_slice(b" ")?;
    text.extend_from_slice(b.id(at.b))?;
    Ok(())
}

// Appends a sum in decimal digits.
fn push_sum(text: &mut Vec<u8>, sum: i64) -> Result<(), NoMemory>
    ensures { OnOk result (text.new.items ≡ text.old.items ++ signed_decimal sum) }
{
    let mut digits = Buffer::new();
    text.extend_from_slice(digits.format(sum).as_bytes())?;
    Ok(())
}

// Appends the reason of two sums.
fn push_sums(text: &mut Vec<u8>, links: i64, prices: i64) -> Result<(), NoMemory>
    ensures { OnOk result (text.new.items ≡ text.old.items ++ reason_text [] [] (refutation.Sum links prices)) }
{
    text.extend_from_slice(b"sum ")?;
    push_sum(text, links)?;
    text.extend_from_slice(b" ")?;
    push_sum(text, prices)
}

// Appends a reason.
fn push_reason(
    text: &mut Vec<u8>,
    refutation: Refutation,
    a: &StdFile,
    b: &StdFile,
) -> Result<(), NoMemory>
    requires within { IsRefutationWithin (length a.now) (length b.now) refutation }
    ensures { OnOk result (text.new.items ≡ text.old.items ++ reason_text a.now b.now refutation) }
{
    match refutation {
        Refutation::Rule { row } => push_place(text, b"rule ", row),
        Refutation::Link { row } => push_place(text, b"link ", row),
        Refutation::Reused { row } => push_place(text, b"reused ", row),
        Refutation::Price { row } => push_place(text, b"price ", row),
        Refutation::Uncovered { at } => push_uncovered(text, at, a, b),
        Refutation::Sum { links, prices } => push_sums(text, links, prices),
        Refutation::NoMemory => Err(NoMemory),
    }
}

// The line of files that are refuted.
fn refuted_line(
    alloc: Global,
    refutation: Refutation,
    prepared: &Prepared,
) -> Result<Text, NoMemory>
    requires within { IsRefutationWithin (length prepared.now.files.a.records) (length prepared.now.files.b.records) refutation }
    ensures { IfOk result (λ line. line ≡ line_of prepared.now.files (Err refutation)) }
{
    let mut text = Vec::new(alloc);
    text.extend_from_slice(b"no: ")?;
    push_reason(&mut text, refutation, prepared.a(), prepared.b())?;
    text.push(b'\n')?;
    Ok(Text::of(text))
}

/// What an auditor is told of written files, each of at most `MOST_WRITTEN_BYTES`, over prepared files: whether they prove their links
/// for the rule of the decisions and for the candidates, and else the first reason why not. Whoever wrote them is not asked.
pub fn verify_files(
    alloc: Global,
    plan: &Plan,
    prepared: &Prepared,
    decided: &Decided,
    journal: &Journal,
    written: &Written,
) -> Result<Verification, NoMemory>
    requires ranges { KeepsRanges plan.now }
    requires of_files { IsDecidedIn prepared.now decided.now }
    requires decided { IsDecidedFor plan.now prepared.now decided.now }
    requires rule { length written.now.rule ≤ MOST_WRITTEN_BYTES }
    requires links { length written.now.links ≤ MOST_WRITTEN_BYTES }
    requires prices { length written.now.prices ≤ MOST_WRITTEN_BYTES }
    ensures { IfOk result (λ v. TellsVerdict prepared.now.files (verified_in plan.now prepared.now.files (rule_in prepared.now decided.now) journal.now (texts_in written.now)) v) }
{
    candidates_are_bounded();
    let found = candidates(alloc, plan, prepared, decided, journal)?;
    let shape = plan.shape();
    let table = decided.rule().table();
    let verified = verify_written(
        alloc,
        written,
        table,
        &shape,
        &found,
        prepared.a(),
        prepared.b(),
    );
    drop(found);
    match verified {
        Ok(links) => {
            drop(links);
            let line = Text::new(alloc, b"yes\n")?;
            Ok(Verification { proved: true, line })
        }
        Err(Refutation::NoMemory) => Err(NoMemory),
        Err(refutation) => Ok(Verification {
            proved: false,
            line: refuted_line(alloc, refutation, prepared)?,
        }),
    }
}

/// Law: the texts that a run writes of its rule, of its links and of their prices prove these links, and are no longer than a file that
/// is verified may be.
pub fn run_is_verified()
    ensures { RunIsVerified }
{
    candidates_are_bounded();
    written_is_verified();
    written_is_short();
}
