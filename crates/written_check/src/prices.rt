// Written prices, row by row.
ghost use Rattle.std.specs.Prelude.{◌≡◌, ◌+◌, ◌<◌, ◌^◌, IfErr, IfOk, IfSome, MatchBool, None, Ok, Some, length, pos, replicate};
ghost use Rattle.csv.specs.Records.{fields_of};
ghost use Rattle.link_report.specs.Reading.{first_misfit};
ghost use Rattle.written_check.specs.Certified.{have_none, no_prices, price_in, prices_in, prices_verified, row_priced, side_priced};
ghost use Rattle.written_check.specs.PricesSeen.{prices_seen};
ghost use Rattle.written_check.specs.LinkRows.{IsOfRows, Verifies};

use crate::near::position_near;
use crate::refutation::{Refutation, unless_refuted};
use csv::ByteRecord;
use csv_rows::read_decimal;
use file_reader::{Records, field_of};
use link_base::{NoMemory, StdFile};
use link_limits::MOST_VALUE;
use link_report::{PRICES_HEADER, ReadRows, read_rows, rows_begun};
use std::alloc::Global;
use std::marker::Model;

// A side, an id and a price.
const PRICE_FIELDS: usize = 3;

// The prices of a side as far as they are read, one for each record, and the position of the first record after those that have one.
#[derive(Drop)]
pub(crate) struct SidePrices {
    prices: Vec<i64>,
    next: usize,
}

impl Model for SidePrices {
    ghost use Rattle.std.specs.Prelude.{List, ℤ};
    ghost use Rattle.written_check.specs.Certified.{IsReadTo};

    ghost Value = { List ℤ };

    ghost view = { λ s. s.prices.items };

    ghost invariant = { λ s. IsReadTo s.prices.items s.next };
}

impl SidePrices {
    // No prices of so many records.
    fn new(alloc: Global, rows: u32) -> Result<SidePrices, NoMemory>
        ensures { IfOk result (λ prices. prices ≡ replicate rows (pos 0)) }
    {
        let prices = vec![in alloc; 0; rows as usize]?;
        Ok(SidePrices { prices, next: 0 })
    }

    // Whether no record has a price.
    fn has_none(&self) -> bool
        ensures { result ≡ have_none self.now }
    {
        self.next == 0
    }

    // Takes the price of a row, and says whether there was one.
    fn take(&mut self, file: &StdFile, row: &ByteRecord) -> bool
        requires { length self.old ≡ length file.now }
        ensures length { length self.new ≡ length self.old }
        ensures taken { MatchBool result (side_priced file.now (fields_of row.now) self.old ≡ Some self.new) (side_priced file.now (fields_of row.now) self.old ≡ None) }
    {
        let Some(at) = position_near(file, self.next, field_of(row, 1)) else {
            return false;
        };
        let Some(price) = price_of(field_of(row, 2)) else {
            return false;
        };
        let at = at as usize;
        if at < self.next {
            return false;
        }
        self.prices[at] = i64::from(price);
        self.next = at + 1;
        true
    }

    /// The prices, one for each record.
    pub(crate) fn prices(&self) -> &[i64]
        ensures { result.now ≡ self.now }
    {
        &self.prices
    }
}

// The price that a text writes.
fn price_of(text: &[u8]) -> Option<u32>
    ensures { result ≡ price_in text.now }
{
    match read_decimal(text, MOST_VALUE) {
        Some(price) if price > 0 => Some(price),
        _ => None,
    }
}

/// The prices of both sides.
#[derive(Drop)]
pub(crate) struct Prices {
    pub(crate) a: SidePrices,
    pub(crate) b: SidePrices,
}

// Takes the price of a row, and says whether there was one.
fn take_row(prices: &mut Prices, row: &ByteRecord, a: &StdFile, b: &StdFile) -> bool
    requires of_a { length prices.old.a ≡ length a.now }
    requires of_b { length prices.old.b ≡ length b.now }
    ensures length_a { length prices.new.a ≡ length prices.old.a }
    ensures length_b { length prices.new.b ≡ length prices.old.b }
    ensures taken { MatchBool result (row_priced a.now b.now (fields_of row.now) (prices_seen prices.old) ≡ Some (prices_seen prices.new)) (row_priced a.now b.now (fields_of row.now) (prices_seen prices.old) ≡ None) }
{
    let side = field_of(row, 0);
    if side == b"A".as_slice() {
        return prices.b.has_none() && prices.a.take(a, row);
    }
    side == b"B".as_slice() && prices.b.take(b, row)
}

// The prices of the rows that are left, of which the first has the number 1.
fn prices_of_rows(
    alloc: Global,
    rows: &mut Records<'_>,
    a: &StdFile,
    b: &StdFile,
) -> Result<Prices, Refutation>
    requires few { length rows.old + 1 < 2 ^ 32 }
    ensures kind { IfErr result IsOfRows }
    ensures form { IfOk result (λ _. first_misfit PRICE_FIELDS 1 rows.old ≡ None) }
    ensures answer { first_misfit PRICE_FIELDS 1 rows.old ≡ None → Verifies prices_seen (prices_in a.now b.now 1 (no_prices a.now b.now) rows.old) result }
{
    let mut prices = Prices {
        a: SidePrices::new(alloc, a.rows())?,
        b: SidePrices::new(alloc, b.rows())?,
    };
    let mut row = ByteRecord::new(alloc);
    let mut number = 1;
    'rows: while rows.next(&mut row)? {
        if row.len() != PRICE_FIELDS || !take_row(&mut prices, &row, a, b) {
            return Err(Refutation::Price { row: number });
        }
        number += 1;
    }
    Ok(prices)
}

// The prices of a text whose rows are all taken, in one pass.
fn prices_in_order(
    alloc: Global,
    text: &[u8],
    a: &StdFile,
    b: &StdFile,
) -> Result<Option<Prices>, NoMemory>
    requires { length text.now + 1 < 2 ^ 32 }
    ensures { IfOk result (λ prices. IfSome prices (λ taken. prices_verified a.now b.now text.now ≡ Ok (prices_seen taken))) }
{
    let Some(mut rows) = rows_begun(alloc, text, &PRICES_HEADER)? else {
        return Ok(None);
    };
    unless_refuted(prices_of_rows(alloc, &mut rows, a, b))
}

// Verifies the text of prices, and gives them: in one pass where all rows are taken, and else with the form tested before the rows,
// as reasons go.
pub(crate) fn verify_prices(
    alloc: Global,
    text: &[u8],
    a: &StdFile,
    b: &StdFile,
) -> Result<Prices, Refutation>
    requires few { length text.now + 1 < 2 ^ 32 }
    ensures kind { IfErr result IsOfRows }
    ensures answer { Verifies prices_seen (prices_verified a.now b.now text.now) result }
{
    if let Some(prices) = prices_in_order(alloc, text, a, b)? {
        return Ok(prices);
    }
    match read_rows(alloc, text, &PRICES_HEADER)? {
        ReadRows::Rows(mut rows) => prices_of_rows(alloc, &mut rows, a, b),
        ReadRows::Bad { row } => Err(Refutation::Price { row }),
    }
}
