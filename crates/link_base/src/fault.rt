// The faults of inputs and limits, with their statuses.
ghost use Rattle.std.specs.Prelude.{◌≡◌, ◌++◌, OnOk};
ghost use Rattle.link_base.specs.Fault.{fault_status, fault_text};
ghost use Rattle.link_base.specs.Pieces.{pieces_text};

use crate::piece::Piece::{File, Name, Number, Row, Words};
use crate::piece::{Pieces, four, one, push_pieces, three, two};
use link_texts::{NoMemory, Text};
use std::alloc::{AllocError, AllocFailed, Global};

/// Which file a fault is of.
#[derive(Clone, Copy, PartialEq, Eq)]
pub enum FileRole {
    Settings,
    A,
    B,
    /// The sample of reviewed pairs.
    Sample,
    /// The journal of verdicts.
    Journal,
    /// A batch of new verdicts.
    Verdicts,
    /// The written decision rule.
    Rule,
    /// The written links.
    Links,
    /// The written dual prices.
    Prices,
    /// The capacities of the records of B.
    Capacities,
}

/// What is wrong with the bytes of an input, which limit is passed, or that memory is wanted. Rows are numbered from 1 after the
/// header; `first` is the earlier row.
#[derive(Drop)]
pub enum Fault {
    NotToml,
    UnknownKey {
        key: Text,
    },
    MissingKey {
        key: Text,
    },
    WrongType {
        key: Text,
    },
    OutOfRange {
        key: Text,
    },
    NoHeader {
        role: FileRole,
    },
    RepeatedColumn {
        role: FileRole,
        column: Text,
    },
    NoColumn {
        role: FileRole,
        column: Text,
    },
    TooManyColumns {
        role: FileRole,
        count: u32,
        limit: u64,
    },
    TooManyRows {
        role: FileRole,
        limit: u64,
    },
    /// The row has another number of fields than the header.
    Ragged {
        role: FileRole,
        row: u32,
    },
    NotUtf8 {
        role: FileRole,
        row: u32,
        column: Text,
    },
    FieldTooLong {
        role: FileRole,
        row: u32,
        column: Text,
    },
    EmptyId {
        role: FileRole,
        row: u32,
    },
    RepeatedId {
        role: FileRole,
        row: u32,
        first: u32,
    },
    /// A date that cannot be read, where that is refused.
    BadValue {
        role: FileRole,
        row: u32,
        field: Text,
    },
    /// The distinct values take more bytes than they may.
    PoolFull {
        used: u64,
        limit: u64,
    },
    BadStatus {
        row: u32,
    },
    UnknownId {
        role: FileRole,
        row: u32,
        column: Text,
    },
    RepeatedPair {
        row: u32,
        first: u32,
    },
    NoMatched,
    NoUnmatched,
    TooManyPairs {
        limit: u64,
    },
    BadNumber {
        row: u32,
    },
    BadDate {
        row: u32,
    },
    /// A date is before that of the entry before.
    DateBack {
        role: FileRole,
        row: u32,
    },
    EmptyReviewer {
        row: u32,
    },
    BadVerdict {
        role: FileRole,
        row: u32,
    },
    BadStep {
        row: u32,
    },
    BadCapacity {
        row: u32,
    },
    TooManyEntries {
        limit: u64,
    },
    /// A verdict on a pair that is no possible link.
    NotPossible {
        row: u32,
    },
    FileTooLong {
        role: FileRole,
        limit: u64,
    },
    NoMemory,
}

impl From<NoMemory> for Fault {
    ghost use Rattle.std.specs.Prelude.{◌≡◌};
    ghost use Rattle.link_base.specs.declared.fault.Fault.TheVariants as fault;

    ghost from_gives = { λ _ e. e ≡ fault.NoMemory };

    fn from(_: NoMemory) -> Fault {
        Fault::NoMemory
    }
}

impl From<AllocError> for Fault {
    ghost use Rattle.std.specs.Prelude.{◌≡◌};
    ghost use Rattle.link_base.specs.declared.fault.Fault.TheVariants as fault;

    ghost from_gives = { λ _ e. e ≡ fault.NoMemory };

    fn from(_: AllocError) -> Fault {
        Fault::NoMemory
    }
}

impl<T: Drop> From<AllocFailed<T>> for Fault {
    ghost use Rattle.std.specs.Prelude.{◌≡◌};
    ghost use Rattle.link_base.specs.declared.fault.Fault.TheVariants as fault;

    ghost from_gives = { λ _ e. e ≡ fault.NoMemory };

    fn from(_: AllocFailed<T>) -> Fault {
        Fault::NoMemory
    }
}

/// The exit status of a command that ends with a fault: 3 for the settings, 4 for a row or file of the input, 5 for a limit,
/// 8 for want of memory.
pub fn status_of(fault: &Fault) -> u8
    ensures { result ≡ fault_status fault.now }
{
    match fault {
        Fault::NotToml
        | Fault::UnknownKey { .. }
        | Fault::MissingKey { .. }
        | Fault::WrongType { .. }
        | Fault::OutOfRange { .. } => 3,
        Fault::NoHeader { .. }
        | Fault::RepeatedColumn { .. }
        | Fault::NoColumn { .. }
        | Fault::Ragged { .. }
        | Fault::NotUtf8 { .. }
        | Fault::EmptyId { .. }
        | Fault::RepeatedId { .. }
        | Fault::BadValue { .. }
        | Fault::BadStatus { .. }
        | Fault::UnknownId { .. }
        | Fault::RepeatedPair { .. }
        | Fault::NoMatched
        | Fault::NoUnmatched
        | Fault::BadNumber { .. }
        | Fault::BadDate { .. }
        | Fault::DateBack { .. }
        | Fault::EmptyReviewer { .. }
        | Fault::BadVerdict { .. }
        | Fault::BadStep { .. }
        | Fault::BadCapacity { .. }
        | Fault::NotPossible { .. } => 4,
        Fault::TooManyColumns { .. }
        | Fault::TooManyRows { .. }
        | Fault::FieldTooLong { .. }
        | Fault::PoolFull { .. }
        | Fault::TooManyPairs { .. }
        | Fault::TooManyEntries { .. }
        | Fault::FileTooLong { .. } => 5,
        Fault::NoMemory => 8,
    }
}

// What is said of a fault.
fn pieces_of(fault: &Fault) -> Pieces<'_>
    ensures { pieces_text result ≡ fault_text fault.now }
{
    match fault {
        Fault::NotToml => one(Words(b"settings: not TOML")),
        Fault::UnknownKey { key } => two(Words(b"settings: unknown key "), Name(key)),
        Fault::MissingKey { key } => two(Words(b"settings: missing key "), Name(key)),
        Fault::WrongType { key } => two(Words(b"settings: wrong type at "), Name(key)),
        Fault::OutOfRange { key } => two(Words(b"settings: out of range at "), Name(key)),
        Fault::NoHeader { role } => two(File(*role), Words(b": no header")),
        Fault::RepeatedColumn { role, column } => four(
            File(*role),
            Words(b": column "),
            Name(column),
            Words(b" stands twice"),
        ),
        Fault::NoColumn { role, column } => {
            three(File(*role), Words(b": no column "), Name(column))
        }
        Fault::TooManyColumns { role, count, limit } => Pieces {
            first: File(*role),
            second: Words(b": "),
            third: Number(u64::from(*count)),
            fourth: Words(b" columns, limit "),
            fifth: Number(*limit),
        },
        Fault::TooManyRows { role, limit } => four(
            File(*role),
            Words(b": more than "),
            Number(*limit),
            Words(b" rows"),
        ),
        Fault::Ragged { role, row } => two(Row(*role, *row), Words(b"number of fields")),
        Fault::NotUtf8 { role, row, column } => {
            three(Row(*role, *row), Name(column), Words(b" is not UTF-8"))
        }
        Fault::FieldTooLong { role, row, column } => {
            three(Row(*role, *row), Name(column), Words(b" is over 255 bytes"))
        }
        Fault::EmptyId { role, row } => two(Row(*role, *row), Words(b"empty id")),
        Fault::RepeatedId { role, row, first } => three(
            Row(*role, *row),
            Words(b"id of row "),
            Number(u64::from(*first)),
        ),
        Fault::BadValue { role, row, field } => {
            three(Row(*role, *row), Name(field), Words(b" is no date"))
        }
        Fault::PoolFull { used, limit } => four(
            Words(b"values: "),
            Number(*used),
            Words(b" bytes, limit "),
            Number(*limit),
        ),
        Fault::BadStatus { row } => two(Row(FileRole::Sample, *row), Words(b"status")),
        Fault::UnknownId { role, row, column } => {
            three(Row(*role, *row), Words(b"unknown "), Name(column))
        }
        Fault::RepeatedPair { row, first } => {
            let earlier = Number(u64::from(*first));
            three(Row(FileRole::Sample, *row), Words(b"pair of row "), earlier)
        }
        Fault::NoMatched => one(Words(b"sample: no matched pair")),
        Fault::NoUnmatched => one(Words(b"sample: no unmatched pair")),
        Fault::TooManyPairs { limit } => two(Words(b"pairs: more than "), Number(*limit)),
        Fault::BadNumber { row } => two(Row(FileRole::Journal, *row), Words(b"number")),
        Fault::BadDate { row } => two(Row(FileRole::Journal, *row), Words(b"date")),
        Fault::DateBack { role, row } => two(Row(*role, *row), Words(b"date goes back")),
        Fault::EmptyReviewer { row } => two(Row(FileRole::Journal, *row), Words(b"no reviewer")),
        Fault::BadVerdict { role, row } => two(Row(*role, *row), Words(b"verdict")),
        Fault::BadStep { row } => two(Row(FileRole::Journal, *row), Words(b"step")),
        Fault::BadCapacity { row } => two(Row(FileRole::Capacities, *row), Words(b"capacity")),
        Fault::TooManyEntries { limit } => three(
            Words(b"journal: more than "),
            Number(*limit),
            Words(b" entries"),
        ),
        Fault::NotPossible { row } => {
            two(Row(FileRole::Verdicts, *row), Words(b"not a possible pair"))
        }
        Fault::FileTooLong { role, limit } => four(
            File(*role),
            Words(b": more than "),
            Number(*limit),
            Words(b" bytes"),
        ),
        Fault::NoMemory => one(Words(b"want of memory")),
    }
}

/// Appends the text of a fault: where it is, and what is wrong there.
pub fn push_fault(alloc: Global, text: &mut Vec<u8>, fault: &Fault) -> Result<(), NoMemory>
    ensures { OnOk result (text.new.items ≡ text.old.items ++ fault_text fault.now) }
{
    push_pieces(alloc, text, pieces_of(fault))
}
