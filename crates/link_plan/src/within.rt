// The parts of the plan of a file with itself.
ghost use Rattle.std.specs.Prelude.{◌≡◌, IfOk, map};
ghost use Rattle.link_plan.specs.Within.{field_within, plan_within, sort_within};

use crate::plan::{FieldList, FieldPlan, Plan};
use link_base::{FieldSort, NoMemory, Tables, Text, TextList, WordPair, WordPairs};
use std::alloc::Global;
use value_forms::{Pass, PassList};

// Dates have the form of A on both sides.
fn sort_within(sort: FieldSort) -> FieldSort
    ensures { result ≡ sort_within sort }
{
    match sort {
        FieldSort::Date(form_a, _) => FieldSort::Date(form_a, form_a),
        FieldSort::Name => FieldSort::Name,
        FieldSort::Place => FieldSort::Place,
    }
}

/// What can be copied where there is memory.
trait Copied {
    fn copied(&self, alloc: Global) -> Result<Self, NoMemory>
        ensures { IfOk result (λ copy. copy ≡ self.now) };
}

// The same items.
fn copied_each<T: Copied + Drop>(alloc: Global, items: &[T]) -> Result<Vec<T>, NoMemory>
    ensures { IfOk result (λ copy. copy.items ≡ items.now) }
{
    let mut copy = Vec::new(alloc);
    for item in items {
        copy.push(item.copied(alloc)?)?;
    }
    Ok(copy)
}

impl Copied for Text {
    fn copied(&self, alloc: Global) -> Result<Text, NoMemory> {
        self.copy(alloc)
    }
}

impl<T: Copied + Drop> Copied for Option<T> {
    fn copied(&self, alloc: Global) -> Result<Option<T>, NoMemory> {
        match self {
            None => Ok(None),
            Some(item) => Ok(Some(item.copied(alloc)?)),
        }
    }
}

impl Copied for TextList {
    fn copied(&self, alloc: Global) -> Result<TextList, NoMemory> {
        Ok(TextList::of(copied_each(alloc, self.texts())?))
    }
}

impl Copied for WordPair {
    fn copied(&self, alloc: Global) -> Result<WordPair, NoMemory> {
        Ok(WordPair {
            from: self.from.copied(alloc)?,
            to: self.to.copied(alloc)?,
        })
    }
}

impl Copied for WordPairs {
    fn copied(&self, alloc: Global) -> Result<WordPairs, NoMemory> {
        Ok(WordPairs::of(copied_each(alloc, self.pairs())?))
    }
}

impl Copied for Pass {
    fn copied(&self, alloc: Global) -> Result<Pass, NoMemory> {
        Ok(Pass::new(Vec::from_slice(alloc, self.parts())?))
    }
}

impl Copied for PassList {
    fn copied(&self, alloc: Global) -> Result<PassList, NoMemory> {
        Ok(PassList::new(copied_each(alloc, self.passes())?))
    }
}

impl Copied for Tables {
    fn copied(&self, alloc: Global) -> Result<Tables, NoMemory> {
        Ok(Tables {
            missing: self.missing.copied(alloc)?,
            titles: self.titles.copied(alloc)?,
            suffixes: self.suffixes.copied(alloc)?,
            names: self.names.copied(alloc)?,
            places: self.places.copied(alloc)?,
        })
    }
}

// A field has the column and the form of A on both sides.
fn field_within(alloc: Global, field: &FieldPlan) -> Result<FieldPlan, NoMemory>
    ensures { IfOk result (λ within. within ≡ field_within field.now) }
{
    Ok(FieldPlan {
        name: field.name.copied(alloc)?,
        column_a: field.column_a.copied(alloc)?,
        column_b: field.column_a.copied(alloc)?,
        sort: sort_within(field.sort),
        compare: field.compare,
        rare: field.rare,
        shares: field.shares,
    })
}

// All fields have the columns and forms of A on both sides.
fn fields_within(alloc: Global, fields: &FieldList) -> Result<FieldList, NoMemory>
    ensures { IfOk result (λ within. within ≡ map field_within fields.now) }
{
    let mut within = Vec::new(alloc);
    for field in fields.fields() {
        within.push(field_within(alloc, field)?)?;
    }
    Ok(FieldList::new(within))
}

// The plan of the file of A with itself.
pub(crate) fn plan_within(alloc: Global, plan: &Plan) -> Result<Plan, NoMemory>
    ensures { IfOk result (λ within. within ≡ plan_within plan.now) }
{
    Ok(Plan {
        file_a: plan.file_a.copied(alloc)?,
        file_b: plan.file_a.copied(alloc)?,
        id_a: plan.id_a.copied(alloc)?,
        id_b: plan.id_a.copied(alloc)?,
        delimiter_a: plan.delimiter_a,
        delimiter_b: plan.delimiter_a,
        sample: Copied::copied(&plan.sample, alloc)?,
        journal: Copied::copied(&plan.journal, alloc)?,
        terms: plan.terms,
        tables: plan.tables.copied(alloc)?,
        fields: fields_within(alloc, &plan.fields)?,
        passes: plan.passes.copied(alloc)?,
    })
}
