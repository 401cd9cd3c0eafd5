// The files of a plan, read in standard values.
ghost use Rattle.std.specs.Prelude.{◌≡◌, ◌<◌, length, map, IfOk, IfSome};
ghost use Rattle.link_base.specs.Fault.{IsAnswer};
ghost use Rattle.file_reader.specs.Rows.{wanted_of};
ghost use Rattle.link_plan.specs.Plan.{FieldKeys};
ghost use Rattle.standard_files.specs.Files.{AreOfPlan, field_column, delimiter_in, wanted_in};
ghost use Rattle.standard_files.specs.Kept.{dated_file};
ghost use Rattle.standard_files.specs.Values.{sort_in};
ghost use Rattle.standard_files.specs.declared.file_values.DatePlace.{DatePlace};

use crate::file_values::{DatedFile, FileValues};
use crate::sorts::TextSort;
use crate::taker::ValueTaker;
use crate::values::ValueTables;
use file_reader::{Layout, read_rows};
use link_base::{Fault, FileRole, NoMemory, Text};
use link_limits::MOST_ROWS;
use link_plan::{FieldPlan, Plan};
use std::alloc::Global;

// The columns of a file's fields, and what they hold.
#[derive(Drop)]
struct Columns {
    names: Vec<Text>,
    sorts: Vec<TextSort>,
}

// The column of a field in A or in B.
fn column_of(field: &FieldPlan, role: FileRole) -> &Text
    ensures { result.now ≡ field_column role field.now }
{
    match role {
        FileRole::B => &field.column_b,
        _ => &field.column_a,
    }
}

// The columns of the fields of A or of B, and what they hold.
fn columns_of(alloc: Global, fields: &[FieldPlan], role: FileRole) -> Result<Columns, NoMemory>
    ensures names { IfOk result (λ columns. columns.names.items ≡ map (field_column role) fields.now) }
    ensures sorts { IfOk result (λ columns. columns.sorts.items ≡ map (λ (f : FieldKeys). sort_in role f.sort) fields.now) }
{
    let mut columns = Columns {
        names: Vec::new(alloc),
        sorts: Vec::new(alloc),
    };
    for field in fields {
        let name = column_of(field, role).copy(alloc)?;
        columns.names.push(name)?;
        columns.sorts.push(TextSort::of(field.sort, role))?;
    }
    Ok(columns)
}

// What a plan wants of A or of B.
fn layout_of(
    alloc: Global,
    plan: &Plan,
    role: FileRole,
    columns: Vec<Text>,
) -> Result<Layout, NoMemory>
    requires { columns.items ≡ map (field_column role) plan.now.fields }
    ensures wanted { IfOk result (λ layout. wanted_of layout ≡ wanted_in role plan.now) }
    ensures delimiter { IfOk result (λ layout. layout.delimiter ≡ delimiter_in role plan.now) }
{
    let (id, delimiter) = match role {
        FileRole::B => (&plan.id_b, plan.delimiter_b),
        _ => (&plan.id_a, plan.delimiter_a),
    };
    Ok(Layout {
        delimiter,
        id: Some(id.copy(alloc)?),
        columns,
        most_rows: MOST_ROWS,
    })
}

/// The values of A or of B, whose table goes by the words of the plan.
pub(crate) fn read_file(
    alloc: Global,
    plan: &Plan,
    tables: &ValueTables,
    role: FileRole,
    bytes: &[u8],
) -> Result<DatedFile, Fault>
    requires tables { tables.now ≡ plan.now.tables }
    ensures answer { IsAnswer (dated_file role plan.now bytes.now) result }
    ensures of_plan { IfOk result (λ dated. AreOfPlan plan.now dated.file.records) }
    ensures within { IfOk result (λ dated. IfSome dated.first (λ (d : DatePlace). d.field < length plan.now.fields)) }
{
    let columns = columns_of(alloc, plan.fields.fields(), role)?;
    let layout = layout_of(alloc, plan, role, columns.names)?;
    let values = FileValues::new(alloc, columns.sorts)?;
    let mut taker = ValueTaker { tables, values };
    match read_rows(alloc, bytes, role, &layout, &mut taker) {
        Ok(told) => Ok(taker.values.finish(told.ids)),
        Err(fault) => Err(fault),
    }
}
