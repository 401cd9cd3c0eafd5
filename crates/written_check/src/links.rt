// Written links, row by row.
ghost use Rattle.std.specs.Prelude.{◌≡◌, ◌+◌, ◌<◌, ◌^◌, [], All, AllPairs, IfErr, IfOk, IfSome, Ok, length};
ghost use Rattle.std.specs.List.{list_all};
ghost use Rattle.price_check.specs.Assignment.{IsBefore, IsWithin};
ghost use Rattle.csv.specs.Records.{fields_of};
ghost use Rattle.link_report.specs.LinksText.{link_fields};
ghost use Rattle.link_report.specs.Reading.{same_row};
ghost use Rattle.written_check.specs.LinkRows.{IsPlaceOf, IsPlaceWithIds, after_all, at_place, candidate_in, has_ids, goes_before, links_in, links_verified, IsOfRows, Verifies};

use crate::refutation::{Refutation, unless_refuted};
use csv::ByteRecord;
use file_reader::{Records, field_of};
use itoa::Buffer;
use link_base::{Candidate, NoMemory, PairAt, StdFile, distinct_ids};
use link_report::{LINKS_HEADER, ReadRows, has_fields, read_rows, rows_begun, source_of};
use price_check::{candidate_at, end_of_near};
use std::alloc::Global;

// Whether a row is that of a candidate.
fn is_row_of(row: &ByteRecord, c: Candidate, a: &StdFile, b: &StdFile) -> bool
    requires { IsWithin (length a.now) (length b.now) c }
    ensures { result ≡ same_row (fields_of row.now) (link_fields a.now b.now c) }
{
    let mut weight = Buffer::new();
    let mut value = Buffer::new();
    let fields = [
        a.id(c.a),
        b.id(c.b),
        weight.format(c.weight).as_bytes(),
        value.format(c.value).as_bytes(),
        source_of(&c),
    ];
    has_fields(row, &fields)
}

// Whether a candidate has the ids of a row.
fn has_ids_of(row: &ByteRecord, c: Candidate, a: &StdFile, b: &StdFile) -> bool
    requires { IsWithin (length a.now) (length b.now) c }
    ensures { result ≡ has_ids a.now b.now (fields_of row.now) c }
{
    a.id(c.a) == field_of(row, 0) && b.id(c.b) == field_of(row, 1)
}

// The place of a candidate with the ids of a row, where it is one of the few from a place on.
fn place_near(
    row: &ByteRecord,
    candidates: &[Candidate],
    from: usize,
    a: &StdFile,
    b: &StdFile,
) -> Option<usize>
    requires { All (IsWithin (length a.now) (length b.now)) candidates.now }
    ensures { IfSome result (IsPlaceWithIds candidates.now a.now b.now (fields_of row.now)) }
{
    for place in from..end_of_near(from, candidates.len()) {
        if has_ids_of(row, candidates[place], a, b) {
            return Some(place);
        }
    }
    None
}

// The place of the candidate with the ids of a row, which is likely to be one of those from a place on.
fn place_of(
    row: &ByteRecord,
    candidates: &[Candidate],
    from: usize,
    a: &StdFile,
    b: &StdFile,
) -> Option<usize>
    requires rising { AllPairs IsBefore candidates.now }
    requires within { All (IsWithin (length a.now) (length b.now)) candidates.now }
    ensures { IsPlaceOf candidates.now a.now b.now (fields_of row.now) result }
{
    distinct_ids(a);
    distinct_ids(b);
    if let Some(place) = place_near(row, candidates, from, a, b) {
        return Some(place);
    }
    let of_a = a.find(field_of(row, 0))?;
    let of_b = b.find(field_of(row, 1))?;
    candidate_at(candidates, PairAt { a: of_a, b: of_b })
}

// Whether one candidate stands before another.
fn stands_before(x: Candidate, y: Candidate) -> bool
    ensures { result ≡ goes_before x y }
{
    x.a < y.a || (x.a == y.a && x.b < y.b)
}

// Whether a candidate stands after the last of rising ones, and so after each of them.
fn stands_after(taken: &[Candidate], c: Candidate) -> bool
    requires { AllPairs IsBefore taken.now }
    ensures { result ≡ list_all (λ d. goes_before d c) taken.now }
{
    match taken.last() {
        Some(d) => stands_before(*d, c),
        None => true,
    }
}

// The place of the candidate of a row that stands after those that were taken, which is likely to be one of those from a place on.
fn next_link(
    row: &ByteRecord,
    taken: &[Candidate],
    candidates: &[Candidate],
    from: usize,
    a: &StdFile,
    b: &StdFile,
) -> Option<usize>
    requires taken { AllPairs IsBefore taken.now }
    requires rising { AllPairs IsBefore candidates.now }
    requires within { All (IsWithin (length a.now) (length b.now)) candidates.now }
    ensures candidate { at_place candidates.now result ≡ after_all taken.now (candidate_in candidates.now a.now b.now (fields_of row.now)) }
    ensures within { IfSome result (λ place. place < length candidates.now) }
{
    let Some(place) = place_of(row, candidates, from, a, b) else {
        return None;
    };
    let c = candidates[place];
    if !is_row_of(row, c, a, b) {
        return None;
    }
    if !stands_after(taken, c) {
        return None;
    }
    Some(place)
}

// The candidates of the rows that are left. Links rise, so that the next is sought from the last on.
fn links_of_rows(
    alloc: Global,
    rows: &mut Records<'_>,
    candidates: &[Candidate],
    a: &StdFile,
    b: &StdFile,
) -> Result<Vec<Candidate>, Refutation>
    requires few { length rows.old + 1 < 2 ^ 32 }
    requires rising { AllPairs IsBefore candidates.now }
    requires within { All (IsWithin (length a.now) (length b.now)) candidates.now }
    ensures kind { IfErr result IsOfRows }
    ensures answer { Verifies (λ links. links.items) (links_in candidates.now a.now b.now [] rows.old) result }
{
    let mut links = Vec::new(alloc);
    let mut row = ByteRecord::new(alloc);
    let mut from = 0;
    'rows: while rows.next(&mut row)? {
        let Some(place) = next_link(&row, &links, candidates, from, a, b) else {
            return Err(Refutation::Link {
                row: links.len() as u32 + 1,
            });
        };
        links.push(candidates[place])?;
        from = place + 1;
    }
    Ok(links)
}

// The links of a text whose rows are all taken, in one pass.
fn links_in_order(
    alloc: Global,
    text: &[u8],
    candidates: &[Candidate],
    a: &StdFile,
    b: &StdFile,
) -> Result<Option<Vec<Candidate>>, NoMemory>
    requires few { length text.now + 1 < 2 ^ 32 }
    requires rising { AllPairs IsBefore candidates.now }
    requires within { All (IsWithin (length a.now) (length b.now)) candidates.now }
    ensures { IfOk result (λ links. IfSome links (λ taken. links_verified candidates.now a.now b.now text.now ≡ Ok taken.items)) }
{
    let Some(mut rows) = rows_begun(alloc, text, &LINKS_HEADER)? else {
        return Ok(None);
    };
    unless_refuted(links_of_rows(alloc, &mut rows, candidates, a, b))
}

// Verifies the text of links, and gives them: in one pass where all rows are taken, and else with the form tested before the rows, as
// reasons go.
pub(crate) fn verify_links(
    alloc: Global,
    text: &[u8],
    candidates: &[Candidate],
    a: &StdFile,
    b: &StdFile,
) -> Result<Vec<Candidate>, Refutation>
    requires few { length text.now + 1 < 2 ^ 32 }
    requires rising { AllPairs IsBefore candidates.now }
    requires within { All (IsWithin (length a.now) (length b.now)) candidates.now }
    ensures kind { IfErr result IsOfRows }
    ensures answer { Verifies (λ links. links.items) (links_verified candidates.now a.now b.now text.now) result }
{
    if let Some(links) = links_in_order(alloc, text, candidates, a, b)? {
        return Ok(links);
    }
    match read_rows(alloc, text, &LINKS_HEADER)? {
        ReadRows::Rows(mut rows) => links_of_rows(alloc, &mut rows, candidates, a, b),
        ReadRows::Bad { row } => Err(Refutation::Link { row }),
    }
}
