// The terms of a run: what of the settings is neither a text nor a list.
ghost use Rattle.std.specs.Prelude.{List, ℕ, Bool, Option, Result, IfOk, IfSome};
ghost use Rattle.link_base.specs.Answers.{GivesBut};
ghost use Rattle.link_plan.specs.Terms.{IsIn, KeepsTerms, terms_by};

use link_limits::PER_MILLION;
use std::alloc::Global;

/// The greatest award for a pair that is a link by review.
pub const MOST_AWARD: u32 = 1000;

/// The greatest seed, which is the greatest whole number of TOML.
pub const MOST_SEED: u64 = 9_223_372_036_854_775_807;

/// The keys of the terms.
pub const TERM_KEYS: [&str; 6] = ["mu_ppm", "lambda_ppm", "seed", "award", "strict", "double"];

/// The terms of a run: its numbers and truth values. Levels are in millionths.
#[derive(Clone, Copy)]
pub struct Terms {
    pub mu_ppm: u32,
    pub lambda_ppm: u32,
    pub seed: u64,
    pub award: u32,
    pub strict: bool,
    pub double: bool,
}

/// What gives the terms of a run, a key at a time: `number` and `truth` say what stands at a key, or why it is refused, and `is_want`
/// which refusal is want of memory.
pub trait TermSource {
    type Fault: Drop;

    ghost is_want: { Self.Fault → Bool };

    ghost number: { Self → List ℕ → ℕ → ℕ → Option ℕ → Result ℕ Self.Fault };

    ghost truth: { Self → List ℕ → Result Bool Self.Fault };

    /// The number at a key, from `low` to `high`. A key without a default has to be there.
    fn number(
        &self,
        alloc: Global,
        key: &str,
        low: u64,
        high: u64,
        default: Option<u64>,
    ) -> Result<u64, Self::Fault>
        requires default { IfSome default (IsIn low high) }
        ensures gives { GivesBut is_want (λ n. n) (number self.now key.now low high default) result }
        ensures range { IfOk result (IsIn low high) };

    /// The truth value at a key, false where the key is not there.
    fn truth(&self, alloc: Global, key: &str) -> Result<bool, Self::Fault>
        ensures { GivesBut is_want (λ b. b) (truth self.now key.now) result };
}

impl Terms {
    /// The terms that a source gives, or the first fault of a key.
    pub fn read<S: TermSource>(alloc: Global, source: &S) -> Result<Terms, S::Fault>
        ensures gives { GivesBut S.is_want (λ t. t) (terms_by (S.number source.now) (S.truth source.now)) result }
        ensures ranges { IfOk result KeepsTerms }
    {
        let mu_ppm = source.number(alloc, "mu_ppm", 0, u64::from(PER_MILLION), None)?;
        let lambda_ppm = source.number(alloc, "lambda_ppm", 0, u64::from(PER_MILLION), None)?;
        let seed = source.number(alloc, "seed", 0, MOST_SEED, Some(0))?;
        let award = source.number(alloc, "award", 0, u64::from(MOST_AWARD), Some(500))?;
        let strict = source.truth(alloc, "strict")?;
        let double = source.truth(alloc, "double")?;
        Ok(Terms {
            mu_ppm: mu_ppm as u32,
            lambda_ppm: lambda_ppm as u32,
            seed,
            award: award as u32,
            strict,
            double,
        })
    }
}
