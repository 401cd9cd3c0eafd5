// What a settings file chooses among: the forms of dates, and the kinds of fields.

/// In which order a date is written.
#[derive(Clone, Copy, PartialEq, Eq)]
pub enum DateForm {
    /// Year, month, day.
    Ymd,
    /// Day, month, year.
    Dmy,
    /// Month, day, year.
    Mdy,
}

/// What a field holds.
#[derive(Clone, Copy)]
pub enum FieldSort {
    /// A person's name.
    Name,
    /// A place.
    Place,
    /// A date, with its form in A and in B.
    Date(DateForm, DateForm),
}
