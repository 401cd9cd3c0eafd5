// The order of the cells.
ghost use Rattle.std.specs.Prelude.{◌≡◌, ℕ, ◌<◌, false, length, slice_index_or, IsPermutation};
ghost use Rattle.std.specs.Ordering.{is_lt};
ghost use Rattle.decision_rule.specs.Sorting.{ranks_before};
ghost use Rattle.link_base.specs.declared.rule.RuleCell.{RuleCell};

use link_base::RuleCell;
use std::cmp::Ordering;

/// The order of a rule's cells: the greater m/u first, of equal ones the smaller pattern.
fn rank(a: &RuleCell, b: &RuleCell) -> Ordering
    ensures { is_lt result ≡ ranks_before a.now b.now }
{
    let left = u128::from(b.m) * u128::from(a.u.max(1));
    let right = u128::from(a.m) * u128::from(b.u.max(1));
    left.cmp(&right).then(a.pattern.cmp(&b.pattern))
}

/// Puts the cells into their order.
pub fn order(cells: &mut [RuleCell])
    ensures permutation { IsPermutation cells.old cells.new }
    ensures sorted { (i j : ℕ) (d : RuleCell) → i < j → j < length cells.new
        → ranks_before (slice_index_or cells.new j d) (slice_index_or cells.new i d) ≡ false }
{
    cells.sort_unstable_by(|a, b| rank(a, b));
}
