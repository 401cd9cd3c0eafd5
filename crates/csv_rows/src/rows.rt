// One row of a text.
ghost use Rattle.std.specs.Prelude.{◌≡◌, ◌≤◌, ◌++◌, IfOk, OnOk, decimal, length, map, string_bytes};
ghost use Rattle.csv.specs.Writing.{default_writer, fields_text, row_text};

use crate::fields::push_field;
use link_base::NoMemory;
use std::alloc::Global;

/// Appends a row of two fields or more: its fields with commas between them, and a line feed (RFC 4180).
pub fn push_row(text: &mut Vec<u8>, fields: &[&[u8]]) -> Result<(), NoMemory>
    requires { 2 ≤ length fields.now }
    ensures { OnOk result (text.new.items ≡ text.old.items ++ row_text default_writer (map (λ field. field.now) fields.now)) }
{
    push_field(text, fields[0])?;
    push_rest(text, &fields[1..])?;
    text.push(b'\n')?;
    Ok(())
}

// Appends the fields after the first, each after a comma.
fn push_rest(text: &mut Vec<u8>, fields: &[&[u8]]) -> Result<(), NoMemory>
    ensures { OnOk result (text.new.items ≡ text.old.items ++ fields_text default_writer (map (λ field. field.now) fields.now)) }
{
    for field in fields {
        text.push(b',')?;
        push_field(text, field)?;
    }
    Ok(())
}

/// The decimal digits of a number.
pub fn digits_of(alloc: Global, number: u128) -> Result<String, NoMemory>
    ensures { IfOk result (λ text. string_bytes text ≡ decimal number) }
{
    Ok(format!(in alloc; "{number}")?)
}
