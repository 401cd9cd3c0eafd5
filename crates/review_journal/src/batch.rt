// A batch of new verdicts.
ghost use Rattle.std.specs.Prelude.{◌≡◌};

use link_base::Verdict;
use std::marker::Model;

/// A new verdict on the pair at two positions.
#[derive(Clone, Copy, PartialEq, Eq)]
pub struct NewVerdict {
    pub a: u32,
    pub b: u32,
    pub verdict: Verdict,
}

/// New verdicts in order, which contracts see as the list of them.
#[derive(Drop)]
pub struct Verdicts {
    rows: Vec<NewVerdict>,
}

impl Model for Verdicts {
    ghost use Rattle.std.specs.Prelude.{List};
    ghost use Rattle.review_journal.specs.declared.batch.NewVerdict.{NewVerdict};

    ghost Value = { List NewVerdict };

    ghost view = { λ v. v.rows.items };
}

impl Verdicts {
    /// The batch of these verdicts, which takes no memory.
    pub fn new(rows: Vec<NewVerdict>) -> Verdicts
        ensures { result ≡ rows.items }
    {
        Verdicts { rows }
    }

    /// The verdicts.
    pub fn rows(&self) -> &[NewVerdict]
        ensures { result.now ≡ self.now }
    {
        &self.rows
    }
}
