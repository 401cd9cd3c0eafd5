// What a field holds, and how it is compared.
ghost use Rattle.std.specs.Prelude.{◌≡◌};
ghost use Rattle.toml.specs.View.{table_view};
ghost use Rattle.settings_readers.specs.KeyFaults.{IsAnswer};
ghost use Rattle.settings.specs.Field.{compare_by, rare_number, sort_of, span};
ghost use Rattle.link_plan.specs.Ranges.{may_be_rare};

use crate::canons::numbered;
use crate::words::{Forms, Kind};
use link_base::FieldSort;
use link_plan::{LEAST_RARE, MOST_DAYS, MOST_RARE, MOST_YEARS};
use settings_readers::{Choice, KeyFault, Keys, Whole};
use std::alloc::Global;
use value_forms::CompareKind;

/// The sort of a field of a kind. A date has two forms, and nothing else has one.
pub(crate) fn sort_of(alloc: Global, kind: Kind, keys: &Keys) -> Result<FieldSort, KeyFault>
    ensures { IsAnswer (sort_of kind (table_view keys.now.table.now) keys.now.above.now) result }
{
    match kind {
        Kind::Name => keys.without_both(alloc, "form_a", "form_b", FieldSort::Name),
        Kind::Place => keys.without_both(alloc, "form_a", "form_b", FieldSort::Place),
        Kind::Date => {
            let a = keys.needed(alloc, &Choice(Forms), "form_a")?;
            let b = keys.needed(alloc, &Choice(Forms), "form_b")?;
            Ok(FieldSort::Date(a, b))
        }
    }
}

// How far apart two values that agree may be; letters are not counted beside it.
fn span(alloc: Global, most: u32, keys: &Keys) -> Result<u32, KeyFault>
    ensures { IsAnswer (span most (table_view keys.now.table.now) keys.now.above.now) result }
{
    keys.without(alloc, "n", ())?;
    keys.needed(alloc, &Whole { low: 0, high: most }, "t")
}

/// The comparison that a word names, with its number where it has one.
pub(crate) fn compare_by(
    alloc: Global,
    named: CompareKind,
    keys: &Keys,
) -> Result<CompareKind, KeyFault>
    ensures { IsAnswer (compare_by named (table_view keys.now.table.now) keys.now.above.now) result }
{
    match named {
        CompareKind::Same(canon) => {
            let canon = numbered(alloc, canon, keys)?;
            keys.without(alloc, "t", CompareKind::Same(canon))
        }
        CompareKind::Initials => keys.without_both(alloc, "n", "t", CompareKind::Initials),
        CompareKind::DaysWithin(_) => {
            let days = span(alloc, MOST_DAYS, keys)?;
            Ok(CompareKind::DaysWithin(days))
        }
        CompareKind::YearsWithin(_) => {
            let years = span(alloc, MOST_YEARS, keys)?;
            Ok(CompareKind::YearsWithin(years))
        }
    }
}

fn may_be_rare(compare: CompareKind) -> bool
    ensures { result ≡ may_be_rare compare }
{
    !matches!(
        compare,
        CompareKind::DaysWithin(_) | CompareKind::YearsWithin(_)
    )
}

/// The rare number of a field that is compared so.
pub(crate) fn rare_number(
    alloc: Global,
    compare: CompareKind,
    keys: &Keys,
) -> Result<Option<u32>, KeyFault>
    ensures { IsAnswer (rare_number compare (table_view keys.now.table.now) keys.now.above.now) result }
{
    if may_be_rare(compare) {
        let most = Whole {
            low: LEAST_RARE,
            high: MOST_RARE,
        };
        return keys.optional(alloc, &most, "rare");
    }
    keys.without(alloc, "rare", None)
}
