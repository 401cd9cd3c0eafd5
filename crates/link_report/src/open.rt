// The possible links that wait for a verdict.
ghost use Rattle.std.specs.Prelude.{◌≡◌, ◌<◌, ◌++◌, All, IfOk, OnOk, length};
ghost use Rattle.link_report.specs.LinksText.{open_row, text_of_open};
ghost use Rattle.link_report.specs.declared.open.PairRow.{PairRow as Row};

use csv_rows::push_row;
use itoa::Buffer;
use link_base::{Decision, NoMemory, PairAt, StdFile, Text, Verdict};
use std::alloc::Global;

/// A compared pair: the positions of its records, its comparison pattern, its weight in eighths of a bit, the decision of the
/// rule, and the verdict of clerical review, where there is one.
#[derive(Clone, Copy)]
pub struct PairRow {
    pub at: PairAt,
    pub pattern: u16,
    pub weight: i32,
    pub decision: Decision,
    pub verdict: Option<Verdict>,
}

// Appends the line of a pair.
fn push_open(text: &mut Vec<u8>, row: &PairRow, a: &StdFile, b: &StdFile) -> Result<(), NoMemory>
    requires in_a { row.now.at.a < length a.now }
    requires in_b { row.now.at.b < length b.now }
    ensures { OnOk result (text.new.items ≡ text.old.items ++ open_row a.now b.now row.now) }
{
    let mut pattern = Buffer::new();
    let mut weight = Buffer::new();
    push_row(
        text,
        &[
            a.id(row.at.a),
            b.id(row.at.b),
            pattern.format(row.pattern).as_bytes(),
            weight.format(row.weight).as_bytes(),
        ],
    )
}

/// The text of pairs that wait for a verdict: the header `id_a,id_b,pattern,weight`, and a line for each pair.
#[tactic(auto, using(crate::proofs::HeaderLemmas::header_texts))]
pub fn open_text(
    alloc: Global,
    rows: &[PairRow],
    a: &StdFile,
    b: &StdFile,
) -> Result<Text, NoMemory>
    requires in_a { All (λ (r : Row). r.at.a < length a.now) rows.now }
    requires in_b { All (λ (r : Row). r.at.b < length b.now) rows.now }
    ensures { IfOk result (λ text. text ≡ text_of_open a.now b.now rows.now) }
{
    let mut text = Vec::new(alloc);
    text.extend_from_slice(b"id_a,id_b,pattern,weight\n")?;
    for row in rows {
        push_open(&mut text, row, a, b)?;
    }
    Ok(Text::of(text))
}
