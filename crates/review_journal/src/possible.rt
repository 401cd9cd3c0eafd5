// New verdicts whose pairs are possible links.
ghost use Rattle.std.specs.Prelude.{◌≡◌, AllPairs, not, position};
ghost use Rattle.link_base.specs.Rule.{IsPairBefore};
ghost use Rattle.review_journal.specs.Batch.{is_among};
ghost use Rattle.review_journal.specs.Places.{pair_cmp};

use crate::batch::NewVerdict;
use link_base::PairAt;
use std::cmp::Ordering;

fn order(at: &PairAt, row: NewVerdict) -> Ordering
    ensures { result ≡ pair_cmp (at.now.a, at.now.b) (row.a, row.b) }
{
    (at.a, at.b).cmp(&(row.a, row.b))
}

/// Whether the pair of a new verdict stands in a rising list.
pub(crate) fn is_among(possible: &[PairAt], row: NewVerdict) -> bool
    requires { AllPairs IsPairBefore possible.now }
    ensures { result ≡ is_among possible.now row }
{
    match possible.binary_search_by(|at| order(at, row)) {
        Ok(_) => true,
        Err(_) => false,
    }
}

/// The place of the first new verdict whose pair does not stand in a rising list.
pub(crate) fn first_not_among(rows: &[NewVerdict], possible: &[PairAt]) -> Option<usize>
    requires { AllPairs IsPairBefore possible.now }
    ensures { result ≡ position (λ v. not (is_among possible.now v)) rows.now }
{
    rows.iter().position(|row| !is_among(possible, *row))
}
