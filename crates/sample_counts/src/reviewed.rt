// The reviewed pairs of a sample.
ghost use Rattle.std.specs.Prelude.{◌≡◌, ◌≤◌, ◌<◌, ◌+◌, ◌++◌, ◌∷◌, [], All, IfOk, length, slice_index_or};
ghost use Rattle.file_reader.specs.Table.{records_in};
ghost use Rattle.link_base.specs.Fault.{Gives, IsAnswer};
ghost use Rattle.file_reader.specs.Rows.{TableRow, no_row};
ghost use Rattle.sample_counts.specs.Sample.{IsInFiles, is_matched_by, reviewed_row, reviewed_rows, sample_of, sample_row, sample_under, IsSample};
ghost use Rattle.sample_counts.specs.Places.{HasPlaces};

use file_reader::{Layout, Table, known_pair, read_table};
use link_base::{Fault, FileRole, StdFile};
use link_limits::MOST_ROWS;
use std::alloc::Global;
use std::collections::BTreeMap;

/// A reviewed pair: the positions of its records in A and in B, and whether it is matched.
#[derive(Clone, Copy)]
pub struct Reviewed {
    pub(crate) a: u32,
    pub(crate) b: u32,
    pub(crate) matched: bool,
}

// Whether a status says that the pair is matched.
fn matched_by(status: &[u8]) -> Option<bool>
    ensures { result ≡ is_matched_by status.now }
{
    if status == b"matched".as_slice() {
        return Some(true);
    }
    if status == b"unmatched".as_slice() {
        return Some(false);
    }
    None
}

// The reviewed pair of the row at a position.
fn reviewed_at(
    alloc: Global,
    table: &Table,
    at: u32,
    a: &StdFile,
    b: &StdFile,
) -> Result<Reviewed, Fault>
    requires within { at < length table.now }
    requires width { length (slice_index_or table.now at no_row).fields ≡ 3 }
    requires few { length table.now ≤ MOST_ROWS }
    ensures answer { IsAnswer (reviewed_row a.now b.now (at + 1) (slice_index_or table.now at no_row).fields) result }
    ensures in_files { IfOk result (λ r. IsInFiles (length a.now) (length b.now) r) }
{
    let row = at + 1;
    let matched = match matched_by(table.field(at, 2)) {
        Some(matched) => matched,
        None => return Err(Fault::BadStatus { row }),
    };
    match known_pair(
        alloc,
        FileRole::Sample,
        row,
        table.field(at, 0),
        table.field(at, 1),
        a,
        b,
    ) {
        Ok(pair) => Ok(Reviewed {
            a: pair.a,
            b: pair.b,
            matched,
        }),
        Err(fault) => Err(fault),
    }
}

// The reviewed pair of the row at a position, which no earlier row names; where the pairs stand is found in few steps.
fn sample_at(
    alloc: Global,
    table: &Table,
    at: u32,
    a: &StdFile,
    b: &StdFile,
    done: &[Reviewed],
    places: &mut BTreeMap<(u32, u32), u32>,
) -> Result<Reviewed, Fault>
    requires within { at < length table.now }
    requires width { length (slice_index_or table.now at no_row).fields ≡ 3 }
    requires few { length table.now ≤ MOST_ROWS }
    requires done { length done.now ≡ at }
    requires places { HasPlaces places.old done.now }
    ensures answer { IsAnswer (sample_row a.now b.now done.now (at + 1) (slice_index_or table.now at no_row).fields) result }
    ensures in_files { IfOk result (λ r. IsInFiles (length a.now) (length b.now) r) }
    ensures places { IfOk result (λ r. HasPlaces places.new (done.now ++ r ∷ [])) }
{
    let pair = match reviewed_at(alloc, table, at, a, b) {
        Ok(pair) => pair,
        Err(fault) => return Err(fault),
    };
    match places.get(&(pair.a, pair.b)) {
        Some(place) => {
            return Err(Fault::RepeatedPair {
                row: at + 1,
                first: *place + 1,
            });
        }
        None => {}
    }
    match places.insert((pair.a, pair.b), at) {
        Ok(_) => Ok(pair),
        Err(_) => Err(Fault::NoMemory),
    }
}

// The reviewed pairs of the rows of a table.
fn reviewed_in(
    alloc: Global,
    table: &Table,
    a: &StdFile,
    b: &StdFile,
) -> Result<Vec<Reviewed>, Fault>
    requires width { All (λ (r : TableRow). length r.fields ≡ 3) table.now }
    requires few { length table.now ≤ MOST_ROWS }
    ensures answer { Gives (λ sample. sample.items) (reviewed_rows a.now b.now [] table.now) result }
    ensures in_files { IfOk result (λ sample. All (IsInFiles (length a.now) (length b.now)) sample.items) }
    ensures rows { IfOk result (λ sample. length sample.items ≡ length table.now) }
{
    let mut places = BTreeMap::new(alloc);
    let mut done = Vec::new(alloc);
    for at in 0..table.rows() {
        match sample_at(alloc, table, at, a, b, &done, &mut places) {
            Ok(pair) => done.push(pair)?,
            Err(fault) => return Err(fault),
        }
    }
    Ok(done)
}

// The sample in a table, where it has a matched and an unmatched pair.
fn sample_in(alloc: Global, table: &Table, a: &StdFile, b: &StdFile) -> Result<Vec<Reviewed>, Fault>
    requires width { All (λ (r : TableRow). length r.fields ≡ 3) table.now }
    requires few { length table.now ≤ MOST_ROWS }
    ensures answer { Gives (λ sample. sample.items) (sample_under a.now b.now table.now) result }
    ensures is { IfOk result (λ sample. IsSample (length a.now) (length b.now) sample.items) }
{
    let sample = match reviewed_in(alloc, table, a, b) {
        Ok(sample) => sample,
        Err(fault) => return Err(fault),
    };
    if !sample.iter().any(|pair| pair.matched) {
        return Err(Fault::NoMatched);
    }
    if !sample.iter().any(|pair| !pair.matched) {
        return Err(Fault::NoUnmatched);
    }
    Ok(sample)
}

/// The reviewed pairs of a sample file, or its first fault.
pub(crate) fn read_sample(
    alloc: Global,
    bytes: &[u8],
    a: &StdFile,
    b: &StdFile,
) -> Result<Vec<Reviewed>, Fault>
    ensures answer { Gives (λ sample. sample.items) (sample_of a.now b.now (records_in 44 bytes.now)) result }
    ensures is { IfOk result (λ sample. IsSample (length a.now) (length b.now) sample.items) }
{
    let layout = Layout::of(alloc, &[b"id_a", b"id_b", b"status"], MOST_ROWS)?;
    match read_table(alloc, bytes, FileRole::Sample, &layout) {
        Ok(table) => sample_in(alloc, &table, a, b),
        Err(fault) => Err(fault),
    }
}
