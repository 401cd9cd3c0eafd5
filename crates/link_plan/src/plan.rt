// What the settings say.
ghost use Rattle.std.specs.Prelude.{◌≡◌, ◌≤◌, IfOk, length, bytes_eq};

use crate::terms::Terms;
use crate::within::plan_within;
use link_base::{FieldShares, FieldSort, NoMemory, Shape, Tables, Text};
use link_limits::MOST_FIELDS;
use std::alloc::Global;
use std::marker::Model;
use value_forms::{CompareKind, PassList};

/// What the settings say of a field. Contracts see the values of its keys, with plain shares. A rare
/// number is from 2 to 200,000; shares are given where the settings name no sample.
#[derive(Drop)]
pub struct FieldPlan {
    pub name: Text,
    pub column_a: Text,
    pub column_b: Text,
    pub sort: FieldSort,
    pub compare: CompareKind,
    pub rare: Option<u32>,
    pub shares: Option<FieldShares>,
}

impl Model for FieldPlan {
    ghost use Rattle.std.specs.Prelude.{option_map};
    ghost use Rattle.link_plan.specs.Plan.{FieldKeys, plain_shares};

    ghost Value = { FieldKeys };

    ghost view = { λ f. record { name = f.name; column_a = f.column_a; column_b = f.column_b; sort = f.sort; compare = f.compare; rare = f.rare; shares = option_map plain_shares f.shares } };
}

impl FieldPlan {
    /// Whether this is its name.
    pub fn is_named(&self, name: &[u8]) -> bool
        ensures { result ≡ bytes_eq name.now self.now.name }
    {
        name == self.name.bytes()
    }
}

/// One to six fields, which contracts see as the list of them.
#[derive(Drop)]
pub struct FieldList {
    fields: Vec<FieldPlan>,
}

impl Model for FieldList {
    ghost use Rattle.std.specs.Prelude.{List, length, ◌≤◌};
    ghost use Rattle.link_limits.specs.declared.TheConstants.{MOST_FIELDS};
    ghost use Rattle.link_plan.specs.Plan.{FieldKeys};

    ghost Value = { List FieldKeys };

    ghost view = { λ f. f.fields.items };

    ghost invariant = { λ f. (1 ≤ length f.fields.items) × (length f.fields.items ≤ MOST_FIELDS) };
}

impl FieldList {
    /// The list of these fields.
    pub fn new(fields: Vec<FieldPlan>) -> FieldList
        requires some { 1 ≤ length fields.items }
        requires few { length fields.items ≤ MOST_FIELDS }
        ensures { result ≡ fields.items }
    {
        FieldList { fields }
    }

    /// The fields.
    pub fn fields(&self) -> &[FieldPlan]
        ensures all { result.now ≡ self.now }
        ensures some { 1 ≤ length result.now }
        ensures few { length result.now ≤ MOST_FIELDS }
    {
        &self.fields
    }
}

/// What the settings say of a run.
#[derive(Drop)]
pub struct Plan {
    pub file_a: Text,
    pub file_b: Text,
    pub id_a: Text,
    pub id_b: Text,
    pub delimiter_a: u8,
    pub delimiter_b: u8,
    pub sample: Option<Text>,
    pub journal: Option<Text>,
    pub terms: Terms,
    pub tables: Tables,
    pub fields: FieldList,
    pub passes: PassList,
}

impl Plan {
    ghost use Rattle.link_plan.specs.Ranges.{KeepsRanges, NamesFiles};
    ghost use Rattle.link_plan.specs.Plan.{rare_flags};
    ghost use Rattle.link_plan.specs.Within.{plan_within};

    /// The shape of comparison patterns: a field for each field of the plan, and rare where that field
    /// has a rare number.
    pub fn shape(&self) -> Shape
        ensures fields { result.fields ≡ length self.now.fields }
        ensures rare { result.rare ≡ rare_flags self.now.fields }
    {
        let fields = self.fields.fields();
        let mut rare = [false; MOST_FIELDS as usize];
        for (i, field) in fields.iter().enumerate() {
            rare[i] = field.rare.is_some();
        }
        Shape {
            fields: fields.len() as u8,
            rare,
        }
    }

    /// The plan of the file of A with itself: its file, ids, delimiter, columns and forms of dates on both sides, and all else the
    /// same.
    pub fn within(&self, alloc: Global) -> Result<Plan, NoMemory>
        ensures gives { IfOk result (λ plan. plan ≡ plan_within self.now) }
        ensures ranges { KeepsRanges self.now → IfOk result KeepsRanges }
        ensures files { NamesFiles self.now → IfOk result NamesFiles }
    {
        let plan = plan_within(alloc, self)?;
        Ok(plan)
    }
}
