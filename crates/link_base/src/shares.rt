// The shares of a field's outcomes, and the shape of a comparison pattern.
ghost use Rattle.std.specs.Prelude.{◌≡◌, ◌≤◌, ℕ, false, slice_index_or};
ghost use Rattle.link_base.specs.Shares.{IsShares, outcomes_of};
ghost use Rattle.link_limits.specs.declared.TheConstants.{MOST_FIELDS};

/// The chances of a field's outcomes among matched pairs (`m`) and unmatched pairs (`u`), in 1,024ths,
/// in the order agree, disagree, missing, rare (Fellegi and Sunter 1969, section 2). Each of the four
/// adds up to 1,024. The first three are at least 1; the last is at least 1 where agreement on a rare
/// value is an outcome of its own, and else 0.
#[derive(Clone, Copy)]
pub struct FieldShares {
    pub rare: bool,
    pub m: [u16; 4],
    pub u: [u16; 4],
    ghost of_matched: { IsShares (outcomes_of rare) m },
    ghost of_unmatched: { IsShares (outcomes_of rare) u },
}

/// How many fields a comparison pattern has, 1 to 6, and in which of them agreement on a rare value is
/// an outcome of its own.
#[derive(Clone, Copy)]
pub struct Shape {
    pub fields: u8,
    pub rare: [bool; 6],
    ghost some: { 1 ≤ fields },
    ghost few: { fields ≤ MOST_FIELDS },
    ghost unused: { (k : ℕ) → fields ≤ k → slice_index_or rare k false ≡ false },
}
