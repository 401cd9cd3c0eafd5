// Which step of review a verdict is.
ghost use Rattle.std.specs.Prelude.{◌≡◌};
ghost use Rattle.review_journal.specs.Verdict.{is_decided, step_by};

use link_base::{Step, Verdict};

// Whether a verdict says that a pair is a link or that it is none.
pub(crate) fn is_decided(verdict: Verdict) -> bool
    ensures { result ≡ is_decided verdict }
{
    match verdict {
        Verdict::Link | Verdict::NonLink => true,
        Verdict::Undecided => false,
    }
}

// The step of a new verdict, which may confirm an entry.
pub(crate) fn step_by(double: bool, verdict: Verdict, confirming: bool) -> Step
    ensures { result ≡ step_by double verdict confirming }
{
    if !double || !is_decided(verdict) {
        return Step::Single;
    }
    if confirming {
        Step::Confirm
    } else {
        Step::First
    }
}
