// The final links.
ghost use Rattle.std.specs.Prelude.{◌≡◌, ◌<◌, ◌++◌, All, IfOk, IsTrue, OnOk, length, slice_index_or};
ghost use Rattle.link_base.specs.declared.rule.Candidate.{Candidate as Link};
ghost use Rattle.link_report.specs.LineParts.{IsLinkEnd, KeepsLinkEnd, end_of_link};
ghost use Rattle.link_report.specs.declared.links.LinkEnd.{LinkEnd as End};
ghost use Rattle.link_report.specs.LinksText.{link_row, source_of_link, text_of_links};

use crate::id_fields::{IdFields, usual_id_bytes};
use crate::lines::{END_BYTES, append_line};
use csv_rows::push_row;
use itoa::Buffer;
use link_base::{Candidate, NoMemory, Piece, Text};
use std::alloc::Global;

// How many ends of lines are kept.
const KEPT_ENDS: usize = 64;

// How many bytes may follow the two ids of a line, for which room is made beforehand.
const USUAL_END: usize = 20;

/// What a link goes by: `review` where clerical review made it a link, and else `rule`.
pub fn source_of(link: &Candidate) -> &[u8]
    ensures { result.now ≡ source_of_link link.now.reviewed }
{
    if link.reviewed { b"review" } else { b"rule" }
}

// The end of the line of a link, as it was written for that link.
#[derive(Drop)]
pub(crate) struct LinkEnd {
    of: Candidate,
    // The end, and behind it as many bytes as are copied with one that is short.
    text: Vec<u8>,
    // How many bytes the end has.
    bytes: usize,
}

// Appends the end of the line of a link.
fn push_end(text: &mut Vec<u8>, link: &Candidate) -> Result<(), NoMemory>
    ensures { OnOk result (text.new.items ≡ text.old.items ++ end_of_link link.now) }
{
    let mut weight = Buffer::new();
    let mut value = Buffer::new();
    push_row(
        text,
        &[
            b"",
            weight.format(link.weight).as_bytes(),
            value.format(link.value).as_bytes(),
            source_of(link),
        ],
    )
}

// The end of the line of a link.
fn link_end(alloc: Global, link: Candidate) -> Result<LinkEnd, NoMemory>
    ensures of { IfOk result (λ end. end.of ≡ link) }
    ensures right { IfOk result IsLinkEnd }
{
    let mut text = Vec::new(alloc);
    push_end(&mut text, &link)?;
    let bytes = text.len();
    text.extend_from_slice(&[0; END_BYTES])?;
    Ok(LinkEnd {
        of: link,
        text,
        bytes,
    })
}

// Ends to be renewed.
fn some_ends(alloc: Global) -> Result<Vec<LinkEnd>, NoMemory>
    ensures count { IfOk result (λ ends. length ends.items ≡ KEPT_ENDS) }
    ensures right { IfOk result (λ ends. All IsLinkEnd ends.items) }
{
    let link = Candidate {
        a: 0,
        b: 0,
        weight: 0,
        value: 0,
        reviewed: false,
    };
    let mut ends = Vec::new(alloc);
    for _place in 0..KEPT_ENDS {
        let end = link_end(alloc, link)?;
        ends.push(end)?;
    }
    Ok(ends)
}

// Whether the lines of two links have the same end.
fn same_end(x: Candidate, y: Candidate) -> bool
    ensures { IsTrue result → end_of_link x ≡ end_of_link y }
{
    x.weight == y.weight && x.value == y.value && x.reviewed == y.reviewed
}

// Makes the end at a place that of a link.
fn renew(ends: &mut Vec<LinkEnd>, alloc: Global, at: usize, link: Candidate) -> Result<(), NoMemory>
    requires within { at < length ends.old.items }
    requires right { All IsLinkEnd ends.old.items }
    ensures count { length ends.new.items ≡ length ends.old.items }
    ensures right { All IsLinkEnd ends.new.items }
    ensures end { OnOk result ((d : End) → KeepsLinkEnd (end_of_link link) (slice_index_or ends.new.items at d)) }
{
    if same_end(ends[at].of, link) {
        return Ok(());
    }
    let end = link_end(alloc, link)?;
    ends[at] = end;
    Ok(())
}

// Appends the row of a link. Its end is kept at a place that its weight chooses.
#[tactic(auto, using(crate::proofs::LineLemmas::link_written))]
fn push_link(
    text: &mut Vec<u8>,
    ends: &mut Vec<LinkEnd>,
    alloc: Global,
    link: Candidate,
    a: &IdFields<'_>,
    b: &IdFields<'_>,
) -> Result<(), NoMemory>
    requires in_a { link.a < length a.now }
    requires in_b { link.b < length b.now }
    requires count { length ends.old.items ≡ KEPT_ENDS }
    requires right { All IsLinkEnd ends.old.items }
    ensures count { length ends.new.items ≡ KEPT_ENDS }
    ensures right { All IsLinkEnd ends.new.items }
    ensures text { OnOk result (text.new.items ≡ text.old.items ++ link_row a.now b.now link) }
{
    let at = link.weight.unsigned_abs() as usize % KEPT_ENDS;
    renew(ends, alloc, at, link)?;
    let end = &ends[at];
    let end = Piece::within(&end.text, 0, end.bytes);
    append_line(text, a.piece(link.a), b.piece(link.b), end)
}

/// The text of the final links: the header `id_a,id_b,weight,value,by`, and a row for each link in order, by `review` where
/// clerical review made it a link, and else by `rule`. Weights and values are eighths of a bit.
#[tactic(auto, using(crate::proofs::HeaderLemmas::header_texts))]
pub fn links_text(
    alloc: Global,
    links: &[Candidate],
    a: &IdFields<'_>,
    b: &IdFields<'_>,
) -> Result<Text, NoMemory>
    requires in_a { All (λ (l : Link). l.a < length a.now) links.now }
    requires in_b { All (λ (l : Link). l.b < length b.now) links.now }
    ensures { IfOk result (λ text. text ≡ text_of_links a.now b.now links.now) }
{
    let line = usual_id_bytes(a, b).saturating_add(USUAL_END);
    let mut text = Vec::with_capacity(alloc, links.len().saturating_mul(line))?;
    text.extend_from_slice(b"id_a,id_b,weight,value,by\n")?;
    let mut ends = some_ends(alloc)?;
    for link in links {
        push_link(&mut text, &mut ends, alloc, *link, a, b)?;
    }
    Ok(Text::of(text))
}
