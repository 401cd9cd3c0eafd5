// What holds of every certificate of candidates.
ghost use Rattle.std.specs.Prelude.{◌≤ℤ◌, ℕ, ℤ, All, List};
ghost use Rattle.price_check.specs.Assignment.{Certifies, IsOneToOne, price_of};
ghost use Rattle.candidate_links.specs.Candidates.{HasBounds, candidates_of, most_value};
ghost use Rattle.link_base.specs.Rule.{IsWithinRanges};
ghost use Rattle.link_base.specs.declared.rule.Candidate.{Candidate};
ghost use Rattle.link_base.specs.declared.rule.PairAt.{PairAt};
ghost use Rattle.pair_decisions.specs.PairRule.{FileRule};
ghost use Rattle.review_journal.specs.declared.entry.Entry.{Entry};

use price_check::{greatest_value_is_least, prices_are_bounded};

/// Law: no price of a certificate of a plan's candidates is above the greatest weight and the award: 1,474 eighths of a bit for
/// the greatest award.
pub fn candidate_prices_are_bounded()
    ensures { (rule : FileRule) (entries : List Entry) (award : ℕ) (pairs : List PairAt) (links : List Candidate) (prices_a prices_b : List ℤ)
        → All IsWithinRanges rule.cells → IsOneToOne (candidates_of rule entries award pairs) links
        → Certifies (candidates_of rule entries award pairs) links prices_a prices_b
        → (position : ℕ) → (price_of prices_a position ≤ℤ most_value award) × (price_of prices_b position ≤ℤ most_value award) }
{
    prices_are_bounded();
    greatest_value_is_least();
}

/// Law: a plan's candidates have weights from -480 to 474 eighths of a bit, and values from -480 to the greatest weight and the award.
pub fn candidates_are_bounded()
    ensures { (rule : FileRule) (entries : List Entry) (award : ℕ) (pairs : List PairAt)
        → All IsWithinRanges rule.cells → All (HasBounds award) (candidates_of rule entries award pairs) }
{}
