// Comparators and their laws.
ghost use Rattle.std.specs.Prelude.{◌≡◌, Bool};
ghost use Rattle.link_base.specs.declared.rule.Outcome.{Outcome};
ghost use Rattle.comparators.specs.Laws.{ComparatorLaws};

use link_base::Outcome;

/// How two sides of a field compare.
pub trait Comparator {
    type Side;

    /// The sides that it may be asked of.
    ghost is_valid: { Self → Self.Side → Type 0 };

    /// Whether it can answer `Rare`.
    ghost is_rare: { Self → Bool };

    /// Whether a side is there.
    ghost is_present: { Self → Self.Side → Bool };

    /// The outcome of two sides.
    ghost outcome_of: { Self → Self.Side → Self.Side → Outcome };

    /// Whether it can answer `Rare`.
    fn rare(&self) -> bool
        ensures { result ≡ is_rare self.now };

    /// The outcome of two sides.
    fn outcome(&self, a: &Self::Side, b: &Self::Side) -> Outcome
        requires valid_a { is_valid self.now a.now }
        requires valid_b { is_valid self.now b.now }
        ensures { result ≡ outcome_of self.now a.now b.now };

    ghost laws: { (c : Self) → ComparatorLaws (is_rare c) (is_present c) (outcome_of c) };
}
