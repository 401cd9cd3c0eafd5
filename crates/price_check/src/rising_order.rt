// The order of candidates.
ghost use Rattle.std.specs.Prelude.{AllPairs, IsTrue, ◌↔◌};
ghost use Rattle.price_check.specs.Assignment.{IsBefore};

use link_base::Candidate;

/// Whether a candidate stands before another by its record of A, then of B.
fn is_before(x: Candidate, y: Candidate) -> bool
    ensures { IsTrue result ↔ IsBefore x y }
{
    x.a < y.a || (x.a == y.a && x.b < y.b)
}

/// Whether candidates rise strictly by record of A, then of B, as lists of candidates must.
pub fn are_rising(candidates: &[Candidate]) -> bool
    ensures { IsTrue result ↔ AllPairs IsBefore candidates.now }
{
    for k in 1..candidates.len() {
        if !is_before(candidates[k - 1], candidates[k]) {
            return false;
        }
    }
    true
}
