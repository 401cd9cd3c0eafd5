// Tables of ids, one row of them per record.
ghost use Rattle.std.specs.Prelude.{◌≡◌, ◌*◌, length};
ghost use Rattle.comparators.specs.Fields.{rows_of_width};

use crate::ids::IdValue;
use link_base::Sides;
use std::marker::Model;

/// A table of ids, row by row. Contracts see it as the number of values of a row and the list of its rows.
#[derive(Drop)]
pub struct IdTable {
    // The rows, one behind the other.
    values: Vec<IdValue>,
    rows: u32,
    fields: u8,
}

impl Model for IdTable {
    ghost use Rattle.std.specs.Prelude.{◌≡◌, ◌*◌, length};
    ghost use Rattle.comparators.specs.Fields.{IdRows, rows_of_width};

    ghost Value = { IdRows };

    ghost view = { λ t. record { fields = t.fields; rows = rows_of_width t.fields t.rows t.values.items } };

    ghost invariant = { λ t. length t.values.items ≡ t.rows * t.fields };
}

impl IdTable {
    /// The table of so many rows of so many values, which stand one behind the other.
    pub fn of(fields: u8, rows: u32, values: Vec<IdValue>) -> IdTable
        requires { length values.items ≡ rows * fields }
        ensures fields { result.fields ≡ fields }
        ensures rows { result.rows ≡ rows_of_width fields rows values.items }
    {
        IdTable {
            values,
            rows,
            fields,
        }
    }
}

impl Sides<IdValue> for IdTable {
    ghost all = { λ table. table.rows };

    fn count(&self) -> u32 {
        self.rows
    }

    fn sides(&self, at: u32) -> &[IdValue] {
        let width = usize::from(self.fields);
        let start = at as usize * width;
        &self.values[start..start + width]
    }
}
