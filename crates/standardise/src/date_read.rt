// Dates.
ghost use Rattle.std.specs.Prelude.{◌≡◌};
ghost use Rattle.standardise.specs.DateReads.{date_read, IsValidRead};

use crate::tables::TextTables;
use crate::white_space::trimmed;
use link_base::DateForm;
use value_forms::read_date;

/// What a text is as a date.
#[derive(Clone, Copy, PartialEq, Eq)]
pub enum DateRead {
    /// A mark of a missing value.
    Absent,
    /// A day, counted from 1970-01-01, which is 0.
    Day(i32),
    /// Neither.
    Unreadable,
}

/// The standard value of a date. `Unreadable` exactly where the text, without the white space at its
/// ends, is neither a missing mark nor a civil date of the years 0001 to 9999 in one of the two shapes:
/// three runs of digits in the order of the form with two equal signs out of `-`, `/` and `.` between
/// them, the year of four digits, month and day of one or two; or eight digits without signs.
pub fn std_date(text: &str, form: DateForm, tables: &TextTables) -> DateRead
    ensures read { result ≡ date_read form tables.now.marks text.now }
    ensures valid { IsValidRead result }
{
    let text = trimmed(text);
    if tables.is_missing(text.as_bytes()) {
        return DateRead::Absent;
    }
    match read_date(form, text.as_bytes()) {
        Some(day) => DateRead::Day(day),
        None => DateRead::Unreadable,
    }
}
