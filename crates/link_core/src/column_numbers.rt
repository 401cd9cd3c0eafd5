// The fields of a column by numbers, as its rows are read: equal fields have one number, the place of the field among the texts.
ghost use Rattle.std.specs.Prelude.{◌≡◌, ◌≤◌, ◌+◌, ◌*◌, [], ◌∷◌, IfOk, None, OnOk, length};
ghost use Rattle.block_passes.specs.Numbering.{IsNumbered, KeepNumbers, number_among};
ghost use Rattle.file_reader.specs.Rows.{wanted_of};
ghost use Rattle.link_limits.specs.declared.TheConstants.{MOST_ROWS};
ghost use Rattle.link_core.specs.Pairs.{column_of, present, wanted_column, NumbersColumn, NumbersRows};

use file_reader::{Layout, RowFields, RowTaker, read_rows};
use link_base::{Fault, FileRole, NoMemory};
use link_limits::{MOST_FIELD_BYTES, MOST_ROWS};
use std::alloc::Global;
use value_pool::{Pool, PoolFault};

/// The number of an empty field: it is past all places.
const NO_PLACE: u32 = u32::MAX;

// Takes a field that is not empty, and gives its place.
fn number_field(alloc: Global, pool: &mut Pool, field: &[u8]) -> Result<u32, NoMemory>
    requires room { pool.old.used + length field.now ≤ pool.old.limit }
    ensures limit { pool.new.limit ≡ pool.old.limit }
    ensures used { OnOk result (pool.new.used ≤ pool.old.used + length field.now) }
    ensures kept { OnOk result (KeepNumbers pool.old.texts pool.new.texts) }
    ensures number { IfOk result (λ number. number ≡ number_among pool.new.texts (present field.now)) }
    ensures numbered { OnOk result (IsNumbered pool.new.texts (present field.now)) }
{
    if field.is_empty() {
        return Ok(NO_PLACE);
    }
    match pool.intern(alloc, field) {
        Ok(id) => {
            pool.are_distinct();
            Ok(id.place())
        }
        Err(PoolFault::NoMemory) => Err(NoMemory),
        Err(PoolFault::Full { .. }) => unreachable!(),
    }
}

/// The numbers of the fields of a column, and the texts that they number.
#[derive(Drop)]
pub(crate) struct ColumnNumbers {
    pub(crate) pool: Pool,
    pub(crate) numbers: Vec<u32>,
}

impl RowTaker for ColumnNumbers {
    ghost width = { λ c. 1 };

    ghost most = { λ c. MOST_ROWS };

    ghost took = { λ before rows c. NumbersRows before.pool rows c.pool c.numbers.items };

    fn make_room(&mut self, alloc: Global, rows: u32, bytes: usize) -> Result<(), NoMemory> {
        self.numbers.reserve(rows as usize)?;
        Ok(())
    }

    fn take(&mut self, alloc: Global, row: &RowFields<'_>) -> Result<(), NoMemory> {
        let number = number_field(alloc, &mut self.pool, row.field(0))?;
        self.numbers.push(number)?;
        Ok(())
    }
}

// The layout of a column of a comma file.
fn column_layout(alloc: Global, column: &str) -> Result<Layout, NoMemory>
    ensures comma { IfOk result (λ layout. layout.delimiter ≡ 44) }
    ensures wanted { IfOk result (λ layout. wanted_of layout ≡ wanted_column column.now) }
{
    Layout::of(alloc, &[column.as_bytes()], MOST_ROWS)
}

/// Numbers the fields of a column of a file, which are taken into a pool with room for them.
pub(crate) fn number_column(
    alloc: Global,
    role: FileRole,
    column: &str,
    bytes: &[u8],
    pool: Pool,
) -> Result<ColumnNumbers, Fault>
    requires room { pool.used + MOST_ROWS * MOST_FIELD_BYTES ≤ pool.limit }
    ensures answer { NumbersColumn pool (column_of role column.now bytes.now) result }
{
    let layout = column_layout(alloc, column)?;
    let mut taker = ColumnNumbers {
        pool,
        numbers: Vec::new(alloc),
    };
    match read_rows(alloc, bytes, role, &layout, &mut taker) {
        Ok(_) => Ok(taker),
        Err(fault) => Err(fault),
    }
}
