// The words that name choices.
ghost use Rattle.settings.specs.Words.{delimiter_named, kind_named, form_named, compare_named, key_named};

use link_base::{DateForm, FieldSort};
use settings_readers::{Choices, named_in};
use value_forms::{Canon, CompareKind, End};

/// What a field holds, before its forms.
#[derive(Clone, Copy)]
pub(crate) enum Kind {
    Name,
    Place,
    Date,
}

const DELIMITERS: [(&str, u8); 3] = [("comma", b','), ("semicolon", b';'), ("tab", b'\t')];

const KINDS: [(&str, Kind); 3] = [
    ("name", Kind::Name),
    ("place", Kind::Place),
    ("date", Kind::Date),
];

const FORMS: [(&str, DateForm); 3] = [
    ("ymd", DateForm::Ymd),
    ("dmy", DateForm::Dmy),
    ("mdy", DateForm::Mdy),
];

// A number stands here at its least, until its key is read.
const NAME_COMPARES: [(&str, CompareKind); 5] = [
    ("exact", CompareKind::Same(Canon::Whole)),
    ("soundex", CompareKind::Same(Canon::Soundex)),
    ("nysiis", CompareKind::Same(Canon::Nysiis)),
    ("first", CompareKind::Same(Canon::Letters(End::Front, 1))),
    ("initials", CompareKind::Initials),
];

const DATE_COMPARES: [(&str, CompareKind); 3] = [
    ("exact", CompareKind::Same(Canon::Whole)),
    ("days", CompareKind::DaysWithin(0)),
    ("years", CompareKind::YearsWithin(0)),
];

const NAME_KEYS: [(&str, Canon); 4] = [
    ("whole", Canon::Whole),
    ("soundex", Canon::Soundex),
    ("nysiis", Canon::Nysiis),
    ("first", Canon::Letters(End::Front, 1)),
];

const DATE_KEYS: [(&str, Canon); 2] = [("whole", Canon::Whole), ("year", Canon::Year)];

/// The delimiters of a table.
#[derive(Drop)]
pub(crate) struct Delimiters;

impl Choices for Delimiters {
    type Item = u8;

    ghost gives = { λ _. delimiter_named };

    fn named(&self, text: &str) -> Option<u8> {
        named_in(&DELIMITERS, text)
    }
}

/// The kinds of fields.
#[derive(Drop)]
pub(crate) struct Kinds;

impl Choices for Kinds {
    type Item = Kind;

    ghost gives = { λ _. kind_named };

    fn named(&self, text: &str) -> Option<Kind> {
        named_in(&KINDS, text)
    }
}

/// The forms of dates.
#[derive(Drop)]
pub(crate) struct Forms;

impl Choices for Forms {
    type Item = DateForm;

    ghost gives = { λ _. form_named };

    fn named(&self, text: &str) -> Option<DateForm> {
        named_in(&FORMS, text)
    }
}

/// The comparisons of a sort of field, before their numbers.
#[derive(Drop)]
pub(crate) struct ComparisonsOf(pub(crate) FieldSort);

impl Choices for ComparisonsOf {
    type Item = CompareKind;

    ghost gives = { λ c. compare_named c.0 };

    fn named(&self, text: &str) -> Option<CompareKind> {
        match self.0 {
            FieldSort::Name | FieldSort::Place => named_in(&NAME_COMPARES, text),
            FieldSort::Date(_, _) => named_in(&DATE_COMPARES, text),
        }
    }
}

/// The keys of a sort of field, before their numbers.
#[derive(Drop)]
pub(crate) struct KeysOf(pub(crate) FieldSort);

impl Choices for KeysOf {
    type Item = Canon;

    ghost gives = { λ k. key_named k.0 };

    fn named(&self, text: &str) -> Option<Canon> {
        match self.0 {
            FieldSort::Name | FieldSort::Place => named_in(&NAME_KEYS, text),
            FieldSort::Date(_, _) => named_in(&DATE_KEYS, text),
        }
    }
}
