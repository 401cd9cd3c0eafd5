// The dual prices of records.
ghost use Rattle.std.specs.Prelude.{◌≡◌, ◌<◌, ◌++◌, ◌∷◌, [], IfOk, OnOk, false, length, slice_index_or};
ghost use Rattle.csv.specs.Writing.{default_writer, needs_quotes, row_text};
ghost use Rattle.link_base.specs.Standard.{id_at, no_record};
ghost use Rattle.link_report.specs.LinksText.{price_rows, text_of_prices};

use crate::id_fields::IdFields;
use itoa::Buffer;
use link_base::{NoMemory, Text};
use std::alloc::Global;

// Appends a row of a side, the id of a record and digits.
#[tactic(auto, using(crate::proofs::LineLemmas::priced_written))]
fn push_priced(
    text: &mut Vec<u8>,
    side: &[u8],
    digits: &[u8],
    file: &IdFields<'_>,
    at: u32,
) -> Result<(), NoMemory>
    requires within { at < length file.now }
    requires side { needs_quotes default_writer side.now ≡ false }
    requires digits { needs_quotes default_writer digits.now ≡ false }
    ensures { OnOk result (text.new.items ≡ text.old.items ++ row_text default_writer (side.now ∷ id_at file.now at ∷ digits.now ∷ [])) }
{
    text.extend_from_slice(side)?;
    text.push(b',')?;
    text.extend_from_slice(file.field(at))?;
    text.push(b',')?;
    text.extend_from_slice(digits)?;
    text.push(b'\n')?;
    Ok(())
}

// Appends the row of the price of a record, where it is not 0.
fn push_price(
    text: &mut Vec<u8>,
    side: &[u8],
    price: i64,
    file: &IdFields<'_>,
    at: u32,
) -> Result<(), NoMemory>
    requires within { at < length file.now }
    requires side { needs_quotes default_writer side.now ≡ false }
    ensures { OnOk result (text.new.items ≡ text.old.items ++ price_rows side.now (price ∷ []) (slice_index_or file.now at no_record ∷ [])) }
{
    if price == 0 {
        return Ok(());
    }
    let mut digits = Buffer::new();
    push_priced(text, side, digits.format(price).as_bytes(), file, at)
}

// Appends the rows of a side.
fn push_side(
    text: &mut Vec<u8>,
    side: &[u8],
    prices: &[i64],
    file: &IdFields<'_>,
) -> Result<(), NoMemory>
    requires as_many { length prices.now ≡ length file.now }
    requires side { needs_quotes default_writer side.now ≡ false }
    ensures { OnOk result (text.new.items ≡ text.old.items ++ price_rows side.now prices.now file.now) }
{
    for at in 0..file.rows() {
        push_price(text, side, prices[at as usize], file, at)?;
    }
    Ok(())
}

/// The text of dual prices: the header `side,id,price`, and a row for each record whose price is not 0, those of A in order
/// as side `A`, and then those of B as side `B`. Prices are eighths of a bit, one for each record.
#[tactic(auto, using(crate::proofs::HeaderLemmas::header_texts))]
pub fn prices_text(
    alloc: Global,
    prices_a: &[i64],
    prices_b: &[i64],
    a: &IdFields<'_>,
    b: &IdFields<'_>,
) -> Result<Text, NoMemory>
    requires each_of_a { length prices_a.now ≡ length a.now }
    requires each_of_b { length prices_b.now ≡ length b.now }
    ensures { IfOk result (λ text. text ≡ text_of_prices prices_a.now prices_b.now a.now b.now) }
{
    let mut text = Vec::new(alloc);
    text.extend_from_slice(b"side,id,price\n")?;
    push_side(&mut text, b"A", prices_a, a)?;
    push_side(&mut text, b"B", prices_b, b)?;
    Ok(Text::of(text))
}
