// The records of CSV texts where RFC 4180 leaves open what they are; no command shows them.
use csv::ByteRecord;
use file_reader::Records;
use link_base::NoMemory;
use std::alloc::Global;

// Appends the fields of a record, each after a bar, and a point.
fn push_record(shown: &mut Vec<u8>, row: &ByteRecord) -> Result<(), NoMemory> {
    for field in row.iter() {
        shown.push(b'|')?;
        shown.extend_from_slice(field)?;
    }
    shown.push(b'.')?;
    Ok(())
}

// The first two records of a text.
fn shown(alloc: Global, text: &[u8]) -> Result<Vec<u8>, NoMemory> {
    let mut records = Records::new(alloc, text, b',');
    let mut row = ByteRecord::new(alloc);
    let mut shown = Vec::new(alloc);
    for _ in 0..2 {
        if records.next(&mut row)? {
            push_record(&mut shown, &row)?;
        }
    }
    Ok(shown)
}

/// Quotes where none belong, nothing between quotes, two marks.
const TEXTS: [(&[u8], &[u8]); 5] = [
    (b"a\"b\"\n", b"|a\"b\"."),
    (b"\"a\"b\"c\n", b"|ab\"c."),
    (b"a,\"b\nc", b"|a|b\nc."),
    (b"\"\"\n", b"|."),
    (b"\xEF\xBB\xBF\xEF\xBB\xBFa\n", b"|\xEF\xBB\xBFa."),
];

#[test]
fn texts_of_which_nothing_is_said(rt: HostRuntime) -> Result<(), NoMemory> {
    for (text, wanted) in TEXTS {
        let shown = shown(rt.alloc(), text)?;
        assert!(rt; shown.as_slice() == wanted, "{}", text.escape_ascii());
    }
    Ok(())
}
