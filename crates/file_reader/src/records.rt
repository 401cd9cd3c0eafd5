// The records of a CSV text, one by one.
ghost use Rattle.std.specs.Prelude.{◌≡◌, [], ◌∷◌};
ghost use Rattle.csv.specs.Records.{fields_of};
ghost use Rattle.csv.specs.Reading.{error_kind};
ghost use Rattle.file_reader.specs.Table.{records_in, Took};
ghost use Rattle.file_reader.specs.Reader.{IsOfMemory};

use csv::{ByteRecord, Error, ErrorKind, Reader, ReaderBuilder};
use link_base::NoMemory;
use std::alloc::Global;
use std::marker::Model;

/// The records of a text that are left, which contracts see as the list of them.
#[derive(Drop)]
pub struct Records<'a> {
    reader: Reader<&'a [u8]>,
    done: bool,
}

impl<'a> Model for Records<'a> {
    ghost use Rattle.std.specs.Prelude.{ℕ, List};

    ghost Value = { List (List (List ℕ)) };

    ghost use Rattle.file_reader.specs.Reader.{records_left, IsReading};

    ghost view = { records_left };

    ghost invariant = { IsReading };
}

impl<'a> Records<'a> {
    /// The records of these bytes, after a byte order mark.
    pub fn new(alloc: Global, bytes: &'a [u8], delimiter: u8) -> Records<'a>
        ensures { result ≡ records_in delimiter bytes.now }
    {
        let reader = ReaderBuilder::new()
            .delimiter(delimiter)
            .has_headers(false)
            .flexible(true)
            .from_reader(alloc, bytes);
        Records {
            reader,
            done: false,
        }
    }

    /// Reads the next record, and says whether there was one. After an error there is none.
    pub fn next(&mut self, row: &mut ByteRecord) -> Result<bool, NoMemory>
        ensures { Took self.old self.new (fields_of row.new) result }
    {
        if self.done {
            return Ok(false);
        }
        match self.reader.read_byte_record(row) {
            Ok(true) => return Ok(true),
            Ok(false) => {
                self.done = true;
                return Ok(false);
            }
            Err(error) => {
                self.done = true;
                return Err(cause_of(&error));
            }
        }
    }
}

// Why a record could not be read. A reader that takes records of any length, of bytes that need be no text, refuses none.
fn cause_of(error: &Error) -> NoMemory
    requires { IsOfMemory (error_kind error.now) }
{
    match error.kind() {
        ErrorKind::OutOfMemory | ErrorKind::Io(_) => NoMemory,
        _ => unreachable!(),
    }
}
