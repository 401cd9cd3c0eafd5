// What a field of one file holds.
ghost use Rattle.std.specs.Prelude.{◌≡◌};
ghost use Rattle.standard_files.specs.Values.{sort_in};

use link_base::{DateForm, FieldSort, FileRole};

/// What a field of one file holds: a name, a place, or a date in one form.
#[derive(Clone, Copy, PartialEq, Eq)]
pub enum TextSort {
    Name,
    Place,
    Date(DateForm),
}

impl TextSort {
    // What a field holds as B writes it, and else as A does.
    pub(crate) fn of(sort: FieldSort, role: FileRole) -> TextSort
        ensures { result ≡ sort_in role sort }
    {
        match sort {
            FieldSort::Name => TextSort::Name,
            FieldSort::Place => TextSort::Place,
            FieldSort::Date(of_a, of_b) => match role {
                FileRole::B => TextSort::Date(of_b),
                _ => TextSort::Date(of_a),
            },
        }
    }
}
