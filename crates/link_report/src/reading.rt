// The rows of written files, read again.
ghost use Rattle.std.specs.Prelude.{◌≡◌, ◌<◌, ◌≤◌, ◌+◌, ◌^◌, Bool, IfOk, List, Ok, length, map, ℤ};
ghost use Rattle.csv.specs.Records.{fields_of};
ghost use Rattle.file_reader.specs.Table.{records_in};
ghost use Rattle.link_base.specs.Standard.{Record};
ghost use Rattle.link_base.specs.declared.rule.Candidate.{Candidate as Link};
ghost use Rattle.link_base.specs.declared.rule.RuleCell.{RuleCell as Cell};
ghost use Rattle.link_report.specs.LinksText.{link_fields, links_header, text_of_links, prices_header, text_of_prices, cell_fields, rule_header, text_of_rule};
ghost use Rattle.link_report.specs.Reading.{HasFewRows, HaveFewBegun, first_misfit, rows_begun, rows_of_prices, rows_under, same_row, shown_rows};

use csv::ByteRecord;
use csv_rows::rows_read_again;
use file_reader::{Records, field_of};
use link_base::NoMemory;
use std::alloc::Global;

/// The header of `rule_text`.
pub const RULE_HEADER: [&[u8]; 8] = [
    b"pattern",
    b"outcomes",
    b"m",
    b"u",
    b"weight",
    b"link",
    b"possible",
    b"nonlink",
];

/// The header of `links_text`.
pub const LINKS_HEADER: [&[u8]; 5] = [b"id_a", b"id_b", b"weight", b"value", b"by"];

/// The header of `prices_text`.
pub const PRICES_HEADER: [&[u8]; 3] = [b"side", b"id", b"price"];

/// The rows of a written file.
#[derive(Drop)]
pub enum ReadRows<'a> {
    /// The rows under the header, to be taken one by one. Each has as many fields as the header.
    Rows(Records<'a>),
    /// The first record that is not of the file's form: 0 for the header, or where there is no record, and else the row's number.
    Bad { row: u32 },
}

/// Whether a row has these fields and no others.
pub fn has_fields(row: &ByteRecord, fields: &[&[u8]]) -> bool
    ensures { result ≡ same_row (fields_of row.now) (map (λ field. field.now) fields.now) }
{
    if row.len() != fields.len() {
        return false;
    }
    for at in 0..fields.len() {
        if field_of(row, at) != fields[at] {
            return false;
        }
    }
    true
}

// The first row that has not so many fields, by its number.
fn misfit_in(alloc: Global, rows: &mut Records<'_>, width: usize) -> Result<Option<u32>, NoMemory>
    requires few { length rows.old + 1 < 2 ^ 32 }
    ensures { IfOk result (λ misfit. misfit ≡ first_misfit width 1 rows.old) }
{
    let mut row = ByteRecord::new(alloc);
    let mut number = 1;
    'rows: while rows.next(&mut row)? {
        if row.len() != width {
            return Ok(Some(number));
        }
        number += 1;
    }
    Ok(None)
}

/// The rows after a header, whatever their form, to be taken one by one: those of a text of fewer than 4,294,967,295 bytes, or none
/// where another record is the first.
pub fn rows_begun<'a>(
    alloc: Global,
    bytes: &'a [u8],
    header: &[&[u8]],
) -> Result<Option<Records<'a>>, NoMemory>
    requires { length bytes.now + 1 < 2 ^ 32 }
    ensures rows { IfOk result (λ begun. begun ≡ rows_begun (map (λ name. name.now) header.now) (records_in 44 bytes.now)) }
    ensures few { IfOk result HaveFewBegun }
{
    let mut records = Records::new(alloc, bytes, b',');
    let mut row = ByteRecord::new(alloc);
    if !records.next(&mut row)? || !has_fields(&row, header) {
        return Ok(None);
    }
    Ok(Some(records))
}

/// The rows under a header of a text of fewer than 4,294,967,295 bytes. They are read twice, once for their form and then one by one,
/// so that none is held.
pub fn read_rows<'a>(
    alloc: Global,
    bytes: &'a [u8],
    header: &[&[u8]],
) -> Result<ReadRows<'a>, NoMemory>
    requires { length bytes.now + 1 < 2 ^ 32 }
    ensures rows { IfOk result (λ read. shown_rows read ≡ rows_under (map (λ name. name.now) header.now) (records_in 44 bytes.now)) }
    ensures few { IfOk result HasFewRows }
{
    let Some(mut tested) = rows_begun(alloc, bytes, header)? else {
        return Ok(ReadRows::Bad { row: 0 });
    };
    let misfit = misfit_in(alloc, &mut tested, header.len());
    drop(tested);
    if let Some(row) = misfit? {
        return Ok(ReadRows::Bad { row });
    }
    let Some(rows) = rows_begun(alloc, bytes, header)? else {
        unreachable!();
    };
    Ok(ReadRows::Rows(rows))
}

/// Law: the texts of a rule, of links and of prices read as their rows.
pub fn texts_read_again()
    ensures rule { (rares : List Bool) (cells : List Cell) → rows_under rule_header (records_in 44 (text_of_rule rares cells)) ≡ Ok (map (cell_fields rares) cells) }
    ensures links { (a b : List Record) (links : List Link) → rows_under links_header (records_in 44 (text_of_links a b links)) ≡ Ok (map (link_fields a b) links) }
    ensures prices { (prices_a prices_b : List ℤ) (a b : List Record) → rows_under prices_header (records_in 44 (text_of_prices prices_a prices_b a b)) ≡ Ok (rows_of_prices prices_a prices_b a b) }
{
    rows_read_again();
}
