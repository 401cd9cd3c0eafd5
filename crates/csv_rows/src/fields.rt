// One field of a line.
ghost use Rattle.std.specs.Prelude.{◌≡◌, ◌++◌, OnOk};
ghost use Rattle.csv.specs.Writing.{default_writer, escaped, field_text, needs_byte, needs_quotes};

use link_base::NoMemory;

// Whether a byte calls for quotes: a comma, a quote, or a byte that ends a line.
fn is_special(byte: u8) -> bool
    ensures { result ≡ needs_byte default_writer byte }
{
    matches!(byte, b',' | b'"' | b'\r' | b'\n')
}

/// Whether a field calls for quotes (RFC 4180).
pub fn calls_for_quotes(field: &[u8]) -> bool
    ensures { result ≡ needs_quotes default_writer field.now }
{
    field.iter().any(|byte| is_special(*byte))
}

// Appends the bytes of a field between its quotes, each quote twice.
#[tactic(auto, unfolding(csv::specs::Writing::escaped))]
fn push_escaped(line: &mut Vec<u8>, field: &[u8]) -> Result<(), NoMemory>
    ensures { OnOk result (line.new.items ≡ line.old.items ++ escaped default_writer field.now) }
{
    for byte in field {
        if *byte == b'"' {
            line.push(b'"')?;
        }
        line.push(*byte)?;
    }
    Ok(())
}

/// Appends a field: as it is, or between quotes where it has a comma, a quote or an end of a line (RFC 4180).
pub fn push_field(line: &mut Vec<u8>, field: &[u8]) -> Result<(), NoMemory>
    ensures { OnOk result (line.new.items ≡ line.old.items ++ field_text default_writer field.now) }
{
    if !calls_for_quotes(field) {
        line.extend_from_slice(field)?;
        return Ok(());
    }
    line.push(b'"')?;
    push_escaped(line, field)?;
    line.push(b'"')?;
    Ok(())
}
