// The standard files of a plan.
ghost use Rattle.std.specs.Prelude.{◌≡◌, ◌<◌, length, IfOk, IfSome};
ghost use Rattle.link_base.specs.Fault.{IsAnswer};
ghost use Rattle.file_reader.specs.Table.{Tests};
ghost use Rattle.standard_files.specs.Files.{AreOfPlan, standard_files, strict_fault};
ghost use Rattle.standard_files.specs.Kept.{dated_pair};
ghost use Rattle.standard_files.specs.declared.file_values.DatePlace.{DatePlace};

use crate::file_values::{DatePlace, DatedFile};
use crate::sources::read_file;
use crate::values::ValueTables;
use link_base::{Fault, FileRole, StdFile};
use link_plan::Plan;
use std::alloc::Global;
use std::marker::Model;

/// A file in standard values, with the number of its dates that could not be read. Contracts see its
/// records and this number.
#[derive(Drop)]
pub struct StandardFile {
    pub file: StdFile,
    pub unreadable: u32,
}

impl Model for StandardFile {
    ghost use Rattle.standard_files.specs.Files.{StandardFile as StandardView};

    ghost Value = { StandardView };

    ghost view = { λ f. record { records = f.file; unreadable = f.unreadable } };
}

/// Both files in standard values, which contracts see with their records.
#[derive(Drop)]
pub struct StandardPair {
    pub a: StandardFile,
    pub b: StandardFile,
}

impl Model for StandardPair {
    ghost use Rattle.standard_files.specs.Files.{StandardPair as PairView};

    ghost Value = { PairView };

    ghost view = { λ p. record { a = p.a; b = p.b } };
}

// Refuses the first unreadable date of a file, where the plan is strict.
fn test_dates(
    alloc: Global,
    role: FileRole,
    plan: &Plan,
    first: Option<DatePlace>,
) -> Result<(), Fault>
    requires { IfSome first (λ (d : DatePlace). d.field < length plan.now.fields) }
    ensures fault { Tests (strict_fault role plan.now first) result }
{
    match first {
        Some(date) if plan.terms.strict => {
            let named = &plan.fields.fields()[date.field];
            let field = named.name.copy(alloc)?;
            Err(Fault::BadValue {
                role,
                row: date.row,
                field,
            })
        }
        _ => Ok(()),
    }
}

// Both files, unless a strict plan refuses a date, of A before one of B.
fn pair_of(alloc: Global, plan: &Plan, a: DatedFile, b: DatedFile) -> Result<StandardPair, Fault>
    requires within_a { IfSome a.first (λ (d : DatePlace). d.field < length plan.now.fields) }
    requires within_b { IfSome b.first (λ (d : DatePlace). d.field < length plan.now.fields) }
    ensures answer { IsAnswer (dated_pair plan.now a b) result }
    ensures parts { IfOk result (λ pair. pair ≡ record { a = a.file; b = b.file }) }
{
    match test_dates(alloc, FileRole::A, plan, a.first) {
        Ok(()) => {}
        Err(fault) => return Err(fault),
    }
    let of_b = test_dates(alloc, FileRole::B, plan, b.first);
    match of_b {
        Ok(()) => Ok(StandardPair {
            a: a.file,
            b: b.file,
        }),
        Err(fault) => Err(fault),
    }
}

/// Reads the two files of a plan and gives their standard values: the table of A, the table of B, and
/// then the values of A and of B. A date that cannot be read is absent and counted; a strict plan
/// refuses the first one by file, row and field. Values are made as rows are read, and no table is kept.
pub fn read_files(alloc: Global, plan: &Plan, a: &[u8], b: &[u8]) -> Result<StandardPair, Fault>
    ensures answer { IsAnswer (standard_files plan.now a.now b.now) result }
    ensures of_a { IfOk result (λ pair. AreOfPlan plan.now pair.a.records) }
    ensures of_b { IfOk result (λ pair. AreOfPlan plan.now pair.b.records) }
{
    let tables = ValueTables::new(alloc, &plan.tables)?;
    let of_a = match read_file(alloc, plan, &tables, FileRole::A, a) {
        Ok(file) => file,
        Err(fault) => return Err(fault),
    };
    match read_file(alloc, plan, &tables, FileRole::B, b) {
        Ok(of_b) => pair_of(alloc, plan, of_a, of_b),
        Err(fault) => {
            drop(of_a);
            Err(fault)
        }
    }
}
