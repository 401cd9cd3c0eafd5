// The report of a run.
ghost use Rattle.std.specs.Prelude.{◌≡◌, ◌<◌, ◌++◌, All, IfOk, OnOk, length};
ghost use Rattle.link_base.specs.Rule.{HasBoundedSums};
ghost use Rattle.link_report.specs.ReportText.{cause_of_drop, dropped_row, text_of_report};
ghost use Rattle.link_report.specs.declared.report.Dropped.{Dropped as Row};

use crate::head::push_head;
use csv_rows::push_row;
use link_base::{Levels, NoMemory, PairAt, StdFile, Text};
use std::alloc::Global;

/// A candidate that is not among the links: for a conflict with links, or for its weight where its value is at most 0.
#[derive(Clone, Copy)]
pub struct Dropped {
    pub at: PairAt,
    pub conflict: bool,
}

/// What a run came to: the dates that could not be read in each file, the compared pairs and how many of them have each
/// decision, the possible links that are open, the entries of the journal and how many of them are on no possible link, the
/// attained levels, the links with the sum of their values in eighths of a bit, and the candidates that are not among them,
/// rising by position.
#[derive(Drop)]
pub struct Report {
    pub unreadable_a: u32,
    pub unreadable_b: u32,
    pub pairs: u32,
    pub link: u32,
    pub possible: u32,
    pub nonlink: u32,
    pub undecided: u32,
    pub entries: u32,
    pub idle: u32,
    pub levels: Levels,
    pub links: u32,
    pub total: i64,
    pub dropped: Vec<Dropped>,
}

// Why a candidate is not among the links.
fn cause_of(dropped: &Dropped) -> &[u8]
    ensures { result.now ≡ cause_of_drop dropped.now.conflict }
{
    if dropped.conflict {
        b"conflict"
    } else {
        b"weight"
    }
}

// Appends the row of a candidate that is not among the links.
fn push_dropped(
    text: &mut Vec<u8>,
    dropped: Dropped,
    a: &StdFile,
    b: &StdFile,
) -> Result<(), NoMemory>
    requires in_a { dropped.at.a < length a.now }
    requires in_b { dropped.at.b < length b.now }
    ensures { OnOk result (text.new.items ≡ text.old.items ++ dropped_row a.now b.now dropped) }
{
    push_row(
        text,
        &[a.id(dropped.at.a), b.id(dropped.at.b), cause_of(&dropped)],
    )
}

/// The text of a report: sixteen lines of a name and its numbers, and after them a row for each candidate that is not among
/// the links, with the ids of its records and `conflict` or `weight`. The lines are `rows` and `unreadable` of A and B,
/// `pairs`, `link`, `possible`, `nonlink`, `open`, `entries`, `idle`, the attained levels `mu`, `lambda`, `possible_m` and
/// `possible_u` (Fellegi and Sunter 1969, section 2), each as its sum, the denominator and both in whole parts per million,
/// rounded down, and `links`, `total` and `dropped`.
pub fn report_text(
    alloc: Global,
    report: &Report,
    a: &StdFile,
    b: &StdFile,
) -> Result<Text, NoMemory>
    requires levels { HasBoundedSums report.now.levels }
    requires in_a { All (λ (d : Row). d.at.a < length a.now) report.now.dropped.items }
    requires in_b { All (λ (d : Row). d.at.b < length b.now) report.now.dropped.items }
    ensures { IfOk result (λ text. text ≡ text_of_report a.now b.now report.now) }
{
    let mut text = Vec::new(alloc);
    push_head(&mut text, report, a, b)?;
    for dropped in &report.dropped {
        push_dropped(&mut text, *dropped, a, b)?;
    }
    Ok(Text::of(text))
}
