// The entries of a journal that are on no possible link.
ghost use Rattle.std.specs.Prelude.{◌≡◌, AllPairs};
ghost use Rattle.link_base.specs.Rule.{IsPairBefore};
ghost use Rattle.review_journal.specs.Batch.{idle_count, is_idle};

use crate::batch::NewVerdict;
use crate::entry::Entry;
use crate::journal::Journal;
use crate::possible::is_among;
use link_base::PairAt;

// Whether the pair of an entry does not stand in a rising list.
fn is_idle(possible: &[PairAt], entry: &Entry) -> bool
    requires { AllPairs IsPairBefore possible.now }
    ensures { result ≡ is_idle possible.now entry.now }
{
    let row = NewVerdict {
        a: entry.a,
        b: entry.b,
        verdict: entry.verdict,
    };
    !is_among(possible, row)
}

/// How many entries of a journal are idle: their pairs do not stand in the rising list of possible links.
pub fn idle_entries(journal: &Journal, possible: &[PairAt]) -> u32
    requires { AllPairs IsPairBefore possible.now }
    ensures { result ≡ idle_count possible.now journal.now }
{
    let mut idle = 0;
    for entry in journal.entries() {
        if is_idle(possible, entry) {
            idle += 1;
        }
    }
    idle
}
