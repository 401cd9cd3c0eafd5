// A field's table.
ghost use Rattle.std.specs.Prelude.{◌≡◌, option_map, bytes_eq};
ghost use Rattle.std.specs.List.{list_any};
ghost use Rattle.toml.specs.View.{table_view};
ghost use Rattle.settings_readers.specs.KeyFaults.{Gives, IsAnswer};
ghost use Rattle.link_plan.specs.Plan.{plain_shares};
ghost use Rattle.settings.specs.Field.{compare_keys, field, field_shares, fields, name_keys};

use crate::kinds::{compare_by, rare_number, sort_of};
use crate::shares::Shares;
use crate::texts::{TextRule, label};
use crate::words::{ComparisonsOf, Kinds};
use link_base::{FieldShares, FieldSort, Text};
use link_limits::MOST_FIELDS;
use link_plan::{FieldList, FieldPlan};
use settings_readers::{Choice, Items, KeyFault, Keys, Place, Reader, Row, Rows};
use std::alloc::Global;
use toml::Value;
use value_forms::CompareKind;

const FIELD_KEYS: [&str; 12] = [
    "name", "column_a", "column_b", "kind", "form_a", "form_b", "compare", "n", "t", "rare", "m",
    "u",
];

/// The keys on the name of a field and its columns.
#[derive(Drop)]
pub(crate) struct NameKeys {
    name: Text,
    column_a: Text,
    column_b: Text,
}

/// The keys on what a field holds and how it is compared.
#[derive(Clone, Copy)]
pub(crate) struct CompareKeys {
    sort: FieldSort,
    compare: CompareKind,
    rare: Option<u32>,
}

fn is_taken(before: &[FieldPlan], name: &Text) -> bool
    ensures { result ≡ list_any (λ f. bytes_eq name.now f.name) before.now }
{
    before.iter().any(|field| field.is_named(name.bytes()))
}

#[tactic(auto, unfolding(crate::specs::Field::name_keys))]
fn name_keys(alloc: Global, before: &[FieldPlan], keys: &Keys) -> Result<NameKeys, KeyFault>
    ensures { IsAnswer (name_keys before.now (table_view keys.now.table.now) keys.now.above.now) result }
{
    let name = keys.needed(alloc, &TextRule::FieldName, "name")?;
    if is_taken(before, &name) {
        return Place::new(keys.above, b"name").out_of_range(alloc);
    }
    let column_a = label(alloc, name.bytes(), keys, "column_a")?;
    let column_b = label(alloc, name.bytes(), keys, "column_b")?;
    Ok(NameKeys {
        name,
        column_a,
        column_b,
    })
}

#[tactic(auto, unfolding(crate::specs::Field::compare_keys))]
fn compare_keys(alloc: Global, keys: &Keys) -> Result<CompareKeys, KeyFault>
    ensures { IsAnswer (compare_keys (table_view keys.now.table.now) keys.now.above.now) result }
{
    let kind = keys.needed(alloc, &Choice(Kinds), "kind")?;
    let sort = sort_of(alloc, kind, keys)?;
    let named = keys.needed(alloc, &Choice(ComparisonsOf(sort)), "compare")?;
    let compare = compare_by(alloc, named, keys)?;
    let rare = rare_number(alloc, compare, keys)?;
    Ok(CompareKeys {
        sort,
        compare,
        rare,
    })
}

// The shares of a field's outcomes, which are given where the settings name no sample.
#[tactic(auto, unfolding(crate::specs::Field::given_shares))]
fn field_shares(
    alloc: Global,
    sampled: bool,
    rare: bool,
    keys: &Keys,
) -> Result<Option<FieldShares>, KeyFault>
    ensures { Gives (λ s. option_map plain_shares s) (field_shares sampled rare (table_view keys.now.table.now) keys.now.above.now) result }
{
    if sampled {
        keys.without_both(alloc, "m", "u", ())?;
        return Ok(None);
    }
    let m = keys.needed(alloc, &Shares { rare }, "m")?;
    let u = keys.needed(alloc, &Shares { rare }, "u")?;
    Ok(Some(FieldShares { rare, m, u }))
}

/// One to six fields; `sampled` says that the settings name a sample.
#[derive(Clone, Copy)]
pub(crate) struct Fields {
    pub(crate) sampled: bool,
}

impl Row for Fields {
    type Item = FieldPlan;

    ghost gives = { λ f. field f.sampled };

    #[tactic(auto, unfolding(crate::specs::Field::field))]
    fn read(
        &self,
        alloc: Global,
        before: &[FieldPlan],
        keys: &Keys,
    ) -> Result<FieldPlan, KeyFault> {
        keys.known(alloc, &FIELD_KEYS, &[])?;
        let named = name_keys(alloc, before, keys)?;
        let compared = compare_keys(alloc, keys)?;
        let shares = field_shares(alloc, self.sampled, compared.rare.is_some(), keys)?;
        Ok(FieldPlan {
            name: named.name,
            column_a: named.column_a,
            column_b: named.column_b,
            sort: compared.sort,
            compare: compared.compare,
            rare: compared.rare,
            shares,
        })
    }
}

impl Reader for Fields {
    type Item = FieldList;

    ghost gives = { λ f. fields f.sampled };

    fn read(&self, alloc: Global, place: &Place, value: &Value) -> Result<FieldList, KeyFault> {
        let rows = Items {
            low: 1,
            high: MOST_FIELDS as usize,
            element: Rows(*self),
        };
        Ok(FieldList::new(rows.read(alloc, place, value)?))
    }
}
