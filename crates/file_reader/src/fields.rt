// The fields of a record.
ghost use Rattle.std.specs.Prelude.{◌≡◌, ◌↔◌, [], IsTrue, slice_index_or, count_by, bytes_eq};
ghost use Rattle.std.specs.List.{position_or_len};
ghost use Rattle.std.specs.Str.{IsAscii, is_utf8};
ghost use Rattle.csv.specs.Records.{fields_of};

use csv::ByteRecord;

/// The field of a record at a place, or nothing past the last.
#[inline(always)]
pub fn field_of(row: &ByteRecord, at: usize) -> &[u8]
    ensures { result.now ≡ slice_index_or (fields_of row.now) at [] }
{
    match row.get(at) {
        Some(field) => field,
        None => b"",
    }
}

// The first place of a column, or the number of fields where there is none.
pub(crate) fn place_of(row: &ByteRecord, column: &[u8]) -> usize
    ensures { result ≡ position_or_len (λ field. bytes_eq field column.now) (fields_of row.now) }
{
    for at in 0..row.len() {
        if field_of(row, at) == column {
            return at;
        }
    }
    row.len()
}

// How often a column stands there.
pub(crate) fn count_of(row: &ByteRecord, column: &[u8]) -> usize
    ensures { result ≡ count_by (λ field. bytes_eq field column.now) (fields_of row.now) }
{
    let mut count = 0;
    for at in 0..row.len() {
        if field_of(row, at) == column {
            count += 1;
        }
    }
    count
}

// Whether a field is ASCII. Fields are short, so that byte by byte is fastest.
fn is_plain(field: &[u8]) -> bool
    ensures { IsTrue result ↔ IsAscii field.now }
{
    for byte in field {
        if *byte >= 128 {
            return false;
        }
    }
    true
}

// Whether many bytes are ASCII, of which none has its high bit set, eight at a time.
pub(crate) fn are_plain(bytes: &[u8]) -> bool
    ensures { IsTrue result ↔ IsAscii bytes.now }
{
    let (words, rest) = bytes.as_chunks::<8>();
    for word in words {
        if u64::from_le_bytes(*word) & 0x8080_8080_8080_8080 != 0 {
            return false;
        }
    }
    is_plain(rest)
}

pub(crate) fn is_text(field: &[u8]) -> bool
    ensures { result ≡ is_utf8 field.now }
{
    if is_plain(field) {
        return true;
    }
    match str::from_utf8(field) {
        Ok(_) => true,
        Err(_) => false,
    }
}
