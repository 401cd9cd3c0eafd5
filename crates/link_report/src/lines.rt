// Lines of two fields and an end, which are put together in a room and copied once where all three are short.
ghost use Rattle.std.specs.Prelude.{◌≡◌, ◌≤◌, ◌++◌, IfSome, OnOk, take};
ghost use Rattle.link_report.specs.LineParts.{two_fields};
ghost use Rattle.link_report.specs.declared.lines.TheConstants.{ROOM};

use crate::id_fields::push_two;
use link_base::{NoMemory, Piece};

// How many bytes a short field and a short end have at most.
const FIELD_BYTES: usize = 8;

pub(crate) const END_BYTES: usize = 32;
// How many bytes two short fields, a comma and a short end have at most.
const ROOM: usize = 49;

// Puts a line of short parts into a room, and gives how many bytes it has.
#[inline(always)]
fn put_line(
    room: &mut [u8; ROOM],
    first: &Piece<'_>,
    second: &Piece<'_>,
    end: &Piece<'_>,
) -> Option<usize>
    ensures within { IfSome result (λ bytes. bytes ≤ ROOM) }
    ensures line { IfSome result (λ bytes. take bytes room.new ≡ two_fields first.now second.now ++ end.now) }
{
    let comma = first.put::<FIELD_BYTES>(room, 0)?;
    room[comma] = b',';
    let behind = second.put::<FIELD_BYTES>(room, comma + 1)?;
    end.put::<END_BYTES>(room, behind)
}

// Appends a line part by part.
#[inline(never)]
fn append_parts(
    text: &mut Vec<u8>,
    first: Piece<'_>,
    second: Piece<'_>,
    end: Piece<'_>,
) -> Result<(), NoMemory>
    ensures { OnOk result (text.new.items ≡ text.old.items ++ two_fields first.entry second.entry ++ end.entry) }
{
    push_two(text, first.text(), second.text())?;
    text.extend_from_slice(end.text())?;
    Ok(())
}

/// Appends a line: two fields, and its end.
#[inline(always)]
pub(crate) fn append_line(
    text: &mut Vec<u8>,
    first: Piece<'_>,
    second: Piece<'_>,
    end: Piece<'_>,
) -> Result<(), NoMemory>
    ensures { OnOk result (text.new.items ≡ text.old.items ++ two_fields first.entry second.entry ++ end.entry) }
{
    let mut room = [0; ROOM];
    match put_line(&mut room, &first, &second, &end) {
        Some(bytes) => Ok(text.extend_from_slice(&room[..bytes])?),
        None => append_parts(text, first, second, end),
    }
}
