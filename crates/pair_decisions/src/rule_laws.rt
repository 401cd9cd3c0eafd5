// What holds of every rule of a plan, and what its rare numbers count.
ghost use Rattle.std.specs.Prelude.{◌≡◌, ◌+◌, ◌<◌, List, Ok, Some, false, length, map, slice_get, ℕ};
ghost use Rattle.comparators.specs.declared.ids.IdValue.{IdValue};
ghost use Rattle.link_base.specs.Standard.{Record};
ghost use Rattle.value_forms.specs.declared.canons.CompareKind.{CompareKind};
ghost use Rattle.link_base.specs.declared.rule.PairAt.{PairAt};
ghost use Rattle.link_base.specs.declared.rule.RuleCell.{RuleCell};
ghost use Rattle.link_base.specs.declared.shares.FieldShares.{FieldShares};
ghost use Rattle.decision_rule.specs.Filled.{IsFilled, IsLeast};
ghost use Rattle.pair_decisions.specs.Comparators.{comparators_of, count_of_id, rares_of, StandForFile, StandInField};
ghost use Rattle.pair_decisions.specs.PairRule.{pattern_of_pair, records_with, AreCellsOf, pattern_over};
ghost use Rattle.pair_decisions.specs.PlanShares.{IsRuleOf, counted_in, given_in, HaveValidShares, plain_all};
ghost use Rattle.pair_decisions.specs.TheRule.{the_rule};
ghost use Rattle.link_plan.specs.Plan.{PlainShares};
ghost use Rattle.link_plan.specs.Ranges.{KeepsRanges};
ghost use Rattle.link_plan.specs.declared.plan.Plan.{Plan};
ghost use Rattle.patterns.specs.Patterns.{pattern_count_by};
ghost use Rattle.value_forms.specs.Canons.{compares_days};

use value_pool::Pool;

/// Law: each comparison pattern of a plan stands in one cell of its rule.
pub fn rule_has_patterns()
    ensures { (plan : Plan) (shares : List PlainShares) (cells : List RuleCell) → IsRuleOf plan shares cells
        → map (λ (s : PlainShares). s.rare) shares ≡ rares_of plan.fields → AreCellsOf (pattern_count_by (rares_of plan.fields)) cells }
{}

/// The rule of a plan is the one that its asked levels and the shares of its fields determine.
pub fn is_the_rule()
    ensures { (plan : Plan) (shares : List PlainShares) (cells : List RuleCell)
        → IsRuleOf plan shares cells → cells ≡ the_rule plan.terms.mu_ppm plan.terms.lambda_ppm shares }
{}

/// The count of an id of a pool in a field is the number of records of A and of B, together, whose value in the field has
/// the text of the id as its canon: a rare number counts values and not ids.
#[tactic(auto, using(crate::proofs::ListSteps::rare_counted))]
pub fn rare_counts(pool: &Pool)
    ensures { (kind : CompareKind) (field n : ℕ) (text : List ℕ) (a b : List Record) (rows_a rows_b : List (List IdValue))
        → compares_days kind ≡ false → slice_get pool.now.texts n ≡ Some text
        → StandInField pool.now.texts kind field a rows_a → StandInField pool.now.texts kind field b rows_b
        → count_of_id rows_a rows_b field n ≡ records_with kind field text a + records_with kind field text b }
{
    pool.are_distinct();
}

/// Law: the comparison pattern of two rows of ids and days that stand for the values of two records, by the comparators over ids of a
/// pool and the counts of ids, is that of the two records by the outcomes of their values: each field by its kind, and agreement rare
/// where at most so many records have the value (Fellegi and Sunter 1969, section 2; Newcombe et al. 1959).
pub fn same_patterns(pool: &Pool)
    ensures { (plan : Plan) (a b : List Record) (rows_a rows_b : List (List IdValue)) → KeepsRanges plan
        → StandForFile pool.now.texts plan.fields a rows_a → StandForFile pool.now.texts plan.fields b rows_b
        → pattern_over (comparators_of (length pool.now.texts) plan.fields rows_a rows_b) rows_a rows_b ≡ pattern_of_pair plan.fields a b }
{
    pool.are_distinct();
}

/// The rule that asked levels and the shares of fields determine is a filled table, whatever the levels and the shares are:
/// each comparison pattern stands in one cell with its chances and its weight, the greater m/u first, links are cut from
/// the first cell on and non-links from the last cell back (Fellegi and Sunter 1969, section 2). So each plan has a rule
/// for given shares of its fields. It has no other, and that rule is least: among all randomised rules of every denominator
/// whose levels are at most its own, none has a lower chance of a possible link, among matched or among unmatched pairs.
pub fn the_rule_is_filled()
    ensures filled { (shares : List FieldShares) (mu_ppm lambda_ppm : ℕ)
        → IsFilled shares mu_ppm lambda_ppm (the_rule mu_ppm lambda_ppm (plain_all shares)) }
    ensures of_plan { (plan : Plan) (shares : List FieldShares)
        → IsRuleOf plan (plain_all shares) (the_rule plan.terms.mu_ppm plan.terms.lambda_ppm (plain_all shares)) }
    ensures one { (plan : Plan) (shares : List PlainShares) (xs ys : List RuleCell)
        → IsRuleOf plan shares xs → IsRuleOf plan shares ys → xs ≡ ys }
    ensures least { (plan : Plan) (shares : List PlainShares) (cells : List RuleCell)
        → (rule : IsRuleOf plan shares cells) → IsLeast rule.by_shares cells }
{}

/// The shares of a plan's fields have a rule, and it is the one that they determine (Fellegi and Sunter 1969, section 2): those
/// that its settings give, and those of the counts of its sample. A sample has a pair of each status, so largest remainders
/// give each outcome of a field at least one 1,024th, and they add up to the whole. Its pairs have any comparison patterns of
/// the plan's fields, in which no outcome is rare where a field has no rare number, as have records by their values.
#[tactic(auto, using(crate::proofs::LineLemmas::given_rule, crate::proofs::LineLemmas::counted_rule, crate::proofs::LineLemmas::rule_by_values))]
pub fn shares_have_a_rule()
    ensures given { (plan : Plan) → HaveValidShares plan.fields
        → IsRuleOf plan (given_in plan.fields) (the_rule plan.terms.mu_ppm plan.terms.lambda_ppm (given_in plan.fields)) }
    ensures counted { (plan : Plan) (pattern : PairAt → ℕ) (a b : List Record) (bytes : List ℕ) (shares : List PlainShares)
        → ((at : PairAt) → pattern at < pattern_count_by (rares_of plan.fields))
        → counted_in plan.fields pattern a b bytes ≡ Ok shares
        → IsRuleOf plan shares (the_rule plan.terms.mu_ppm plan.terms.lambda_ppm shares) }
    ensures by_values { (plan : Plan) (a b : List Record) (bytes : List ℕ) (shares : List PlainShares)
        → counted_in plan.fields (pattern_of_pair plan.fields a b) a b bytes ≡ Ok shares
        → IsRuleOf plan shares (the_rule plan.terms.mu_ppm plan.terms.lambda_ppm shares) }
{}
