// The ids of a file's records as fields of lines.
ghost use Rattle.std.specs.Prelude.{◌≡◌, ◌<◌, ◌+◌, ◌-◌, ◌^◌, ◌++◌, ◌∷◌, [], IfOk, IsTrue, OnOk, length};
ghost use Rattle.csv.specs.Writing.{default_writer, field_text};
ghost use Rattle.link_base.specs.Standard.{id_at};
ghost use Rattle.link_report.specs.LineParts.{ArePlain, id_fields, two_fields};

use csv_rows::{calls_for_quotes, push_field};
use link_base::{NoMemory, Piece, StdFile, TextRegion};
use std::alloc::Global;
use std::marker::Model;

// How many bytes a field may have for which room is made beforehand.
const USUAL_BYTES: usize = 8;

// Whether no id of a file calls for quotes.
fn are_plain(file: &StdFile) -> bool
    ensures { IsTrue result → ArePlain file.now }
{
    for at in 0..file.rows() {
        if calls_for_quotes(file.id(at)) {
            return false;
        }
    }
    true
}

// Appends an id as a field, which is made in the room.
fn push_id(fields: &mut TextRegion, room: &mut Vec<u8>, id: &[u8]) -> Result<(), NoMemory>
    ensures { OnOk result (fields.new ≡ fields.old ++ field_text default_writer id.now ∷ []) }
{
    room.clear();
    push_field(room, id)?;
    fields.push(room)
}

// The ids of a file as fields.
fn quoted_ids(alloc: Global, file: &StdFile) -> Result<TextRegion, NoMemory>
    ensures { IfOk result (λ fields. fields ≡ id_fields file.now) }
{
    let count = file.rows() as usize;
    let mut fields = TextRegion::with_capacity(alloc, count, count * USUAL_BYTES)?;
    let mut room = Vec::new(alloc);
    for at in 0..file.rows() {
        push_id(&mut fields, &mut room, file.id(at))?;
    }
    Ok(fields)
}

/// The ids of a file's records as fields of lines, between quotes where RFC 4180 wants them. They are tested once for all lines, and
/// made beforehand only where an id of the file calls for quotes. Contracts see the records.
#[derive(Drop)]
pub struct IdFields<'f> {
    file: &'f StdFile,
    quoted: Option<TextRegion>,
}

impl<'f> Model for IdFields<'f> {
    ghost use Rattle.std.specs.Prelude.{List};
    ghost use Rattle.link_base.specs.Standard.{Record};
    ghost use Rattle.link_report.specs.LineParts.{HasFields};

    ghost Value = { List Record };

    ghost view = { λ f. f.file.now };

    ghost invariant = { λ f. HasFields f.file.now f.quoted };
}

impl<'f> IdFields<'f> {
    /// The ids of the records of a file.
    pub fn of(alloc: Global, file: &'f StdFile) -> Result<IdFields<'f>, NoMemory>
        ensures { IfOk result (λ ids. ids ≡ file.now) }
    {
        if are_plain(file) {
            return Ok(IdFields { file, quoted: None });
        }
        let quoted = quoted_ids(alloc, file)?;
        Ok(IdFields {
            file,
            quoted: Some(quoted),
        })
    }

    // How many records there are.
    pub(crate) fn rows(&self) -> u32
        ensures { result ≡ length self.now }
    {
        self.file.rows()
    }

    // The field of the record at a position, as a piece of the room of all fields.
    #[inline(always)]
    pub(crate) fn piece(&self, at: u32) -> Piece<'_>
        requires { at < length self.now }
        ensures { result ≡ field_text default_writer (id_at self.now at) }
    {
        if let Some(fields) = &self.quoted {
            return fields.piece(at as usize);
        }
        self.file.id_piece(at)
    }

    // The field of the record at a position.
    pub(crate) fn field(&self, at: u32) -> &[u8]
        requires { at < length self.now }
        ensures { result.now ≡ field_text default_writer (id_at self.now at) }
    {
        self.piece(at).text()
    }

    // How many bytes the id of the last record has, 0 where there is none.
    fn last_bytes(&self) -> usize
        ensures bytes { result ≡ length (id_at self.now (length self.now - 1)) }
        ensures short { result < 2 ^ 63 }
    {
        let rows = self.rows();
        if rows == 0 {
            return 0;
        }
        self.file.id(rows - 1).len()
    }
}

/// About how many bytes the ids of a pair have, for the making of room: as many as those of the last records, since the ids of
/// a file are mostly of one length.
pub fn usual_id_bytes(a: &IdFields<'_>, b: &IdFields<'_>) -> usize
    ensures { result ≡ length (id_at a.now (length a.now - 1)) + length (id_at b.now (length b.now - 1)) }
{
    a.last_bytes() + b.last_bytes()
}

/// Appends two fields, and the comma between them.
#[inline(always)]
pub(crate) fn push_two(text: &mut Vec<u8>, first: &[u8], second: &[u8]) -> Result<(), NoMemory>
    ensures { OnOk result (text.new.items ≡ text.old.items ++ two_fields first.now second.now) }
{
    text.extend_from_slice(first)?;
    text.push(b',')?;
    text.extend_from_slice(second)?;
    Ok(())
}
