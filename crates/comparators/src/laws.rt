// What outcomes of values keep, and what the outcomes of ids say of the values that they stand for.
ghost use Rattle.std.specs.Prelude.{◌≡◌, false, List, ℕ, Some, slice_get, slice_index, nat_le};
ghost use Rattle.value_forms.specs.Canons.{canon_of, compares_days};
ghost use Rattle.value_forms.specs.declared.canons.CompareKind.{CompareKind};
ghost use Rattle.link_base.specs.declared.standard.Value.{Value};
ghost use Rattle.comparators.specs.Fields.{field_of, field_outcome, kind_outcome, kind_present, StandsFor, rare_where};
ghost use Rattle.comparators.specs.Laws.{CanonLaws, ComparatorLaws, outcome_by, outcome_of_ids, outcome_of_counted, outcome_of_texts};
ghost use Rattle.comparators.specs.declared.ids.IdValue.{IdValue};

use value_pool::Pool;

/// The outcomes of two values keep the laws of a comparator for each kind of comparison, and where the kind compares canons,
/// values agree exactly where their canons are equal.
pub fn value_laws()
    ensures outcomes { (kind : CompareKind) → ComparatorLaws false (kind_present kind) (kind_outcome kind) }
    ensures canons { (kind : CompareKind) → compares_days kind ≡ false → CanonLaws (kind_present kind) (kind_outcome kind) (canon_of kind) }
{}

/// Ids of a pool compare as the texts that they name: two of them agree exactly where the texts are equal, and with a rare
/// number likewise, rarely where the text's count is at most that number. So the outcome of the ids or days
/// that stand for two values is the outcome of the values, for each kind of comparison.
pub fn same_outcomes(pool: &Pool)
    ensures by_id { (m n : ℕ) (c d : List ℕ) → slice_get pool.now.texts m ≡ Some c → slice_get pool.now.texts n ≡ Some d
        → outcome_by outcome_of_ids (Some m) (Some n) ≡ outcome_of_texts c d }
    ensures rare_by_id { (most : ℕ) (counts : List ℕ) (m n : ℕ) (c d : List ℕ)
        → slice_get pool.now.texts m ≡ Some c → slice_get pool.now.texts n ≡ Some d
        → outcome_by (outcome_of_counted most counts) (Some m) (Some n) ≡ rare_where (nat_le (slice_index counts m) most) (outcome_of_texts c d) }
    ensures fields { (kind : CompareKind) (x y : Value) (a b : IdValue)
        → StandsFor pool.now.texts kind x a → StandsFor pool.now.texts kind y b
        → field_outcome (field_of kind) a b ≡ kind_outcome kind x y }
{
    pool.are_distinct();
}
