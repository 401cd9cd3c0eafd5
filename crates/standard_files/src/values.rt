// Texts in standard values.
ghost use Rattle.std.specs.Prelude.{◌≡◌, ◌+◌, ◌^◌, ◌<◌, false, IfOk, OnOk, length, option_map, sum_by};
ghost use Rattle.link_base.specs.RowsWriter.{with_value};
ghost use Rattle.standardise.specs.Names.{found_value};
ghost use Rattle.standard_files.specs.Kept.{AddsValue};
ghost use Rattle.standard_files.specs.Values.{cannot_be_read, value_of_read};

use crate::sorts::TextSort;
use link_base::{NoMemory, RowsWriter, Tables};
use standardise::{DateRead, TextRoom, TextTables, std_date, std_text_in};
use std::alloc::Global;
use std::marker::Model;

// The tables that names, places and dates go by, which contracts see as the plan's tables.
#[derive(Drop)]
pub(crate) struct ValueTables {
    names: TextTables,
    places: TextTables,
}

impl Model for ValueTables {
    ghost use Rattle.std.specs.Prelude.{◌≡◌, []};
    ghost use Rattle.link_base.specs.declared.tables.Tables.{Tables};

    ghost Value = { Tables };

    ghost view = { λ t. record { missing = t.names.marks; titles = t.names.titles; suffixes = t.names.suffixes; names = t.names.words; places = t.places.words } };

    ghost invariant = { λ t. t.places ≡ record { marks = t.names.marks; titles = []; suffixes = []; words = t.places.words } };
}

impl ValueTables {
    pub(crate) fn new(alloc: Global, tables: &Tables) -> Result<ValueTables, NoMemory>
        ensures { IfOk result (λ t. t ≡ tables.now) }
    {
        let names = TextTables::of_names(alloc, tables)?;
        let places = TextTables::of_places(alloc, tables)?;
        Ok(ValueTables { names, places })
    }

    // Appends the standard value of a text to the open row, and says whether it is to be a date and cannot be read as one. A
    // text that has to be made is made in the room.
    pub(crate) fn add_value(
        &self,
        alloc: Global,
        sort: TextSort,
        text: &str,
        room: &mut TextRoom,
        rows: &mut RowsWriter,
    ) -> Result<bool, NoMemory>
        requires room { sum_by length rows.old.rows + length rows.old.row < 2 ^ 32 }
        ensures { IfOk result (AddsValue self.now sort text.now rows.old rows.new) }
    {
        let tables = match sort {
            TextSort::Name => &self.names,
            TextSort::Place => &self.places,
            TextSort::Date(form) => return add_date(rows, std_date(text, form, &self.names)),
        };
        add_text(rows, std_text_in(alloc, text, tables, room)?)
    }
}

// Appends a text to the open row, if there is one. It is no date that cannot be read.
#[inline(always)]
fn add_text(rows: &mut RowsWriter, found: Option<&[u8]>) -> Result<bool, NoMemory>
    requires room { sum_by length rows.old.rows + length rows.old.row < 2 ^ 32 }
    ensures value { OnOk result (rows.new ≡ with_value rows.old (found_value (option_map (λ text. text.now) found.entry))) }
    ensures unreadable { IfOk result (λ told. told ≡ false) }
{
    match found {
        Some(text) => rows.add_word(text)?,
        None => rows.add_absent()?,
    }
    Ok(false)
}

// Appends a date to the open row, and says whether it cannot be read: then it is absent.
fn add_date(rows: &mut RowsWriter, read: DateRead) -> Result<bool, NoMemory>
    ensures value { OnOk result (rows.new ≡ with_value rows.old (value_of_read read)) }
    ensures unreadable { IfOk result (λ told. told ≡ cannot_be_read read) }
{
    match read {
        DateRead::Day(day) => rows.add_day(day)?,
        DateRead::Absent | DateRead::Unreadable => rows.add_absent()?,
    }
    Ok(read == DateRead::Unreadable)
}
