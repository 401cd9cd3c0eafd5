// The chances of comparison patterns.
ghost use Rattle.std.specs.Prelude.{◌≡◌, ℕ, ◌^◌, ◌<◌, List, length, sum_by};
ghost use Rattle.std.specs.List.{range_with_len};
ghost use Rattle.link_base.specs.declared.shares.FieldShares.{FieldShares};
ghost use Rattle.link_limits.specs.declared.TheConstants.{WHOLE_FIELD};
ghost use Rattle.patterns.specs.Patterns.{m_of, pattern_count_of, u_of};

/// The chances of a pattern among matched and among unmatched pairs are positive, and those of all patterns add up to
/// 1,024 to the number of fields.
pub fn chances()
    ensures matched_some { (shares : List FieldShares) (pattern : ℕ)
        → pattern < pattern_count_of shares → 0 < m_of shares pattern }
    ensures unmatched_some { (shares : List FieldShares) (pattern : ℕ)
        → pattern < pattern_count_of shares → 0 < u_of shares pattern }
    ensures matched_whole { (shares : List FieldShares)
        → sum_by (m_of shares) (range_with_len 0 (pattern_count_of shares)) ≡ WHOLE_FIELD ^ length shares }
    ensures unmatched_whole { (shares : List FieldShares)
        → sum_by (u_of shares) (range_with_len 0 (pattern_count_of shares)) ≡ WHOLE_FIELD ^ length shares }
{}
