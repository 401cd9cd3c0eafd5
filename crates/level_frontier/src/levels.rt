// The rows of the frontier.
ghost use Rattle.std.specs.Prelude.{◌≡◌, ℕ, ◌<◌, ◌≤◌, length, slice_index, slice_index_or, vec_len, All};
ghost use Rattle.patterns.specs.Patterns.{pattern_count_of};

use crate::borders::{chances, link_border, nonlink_border};
use decision_rule::{attained, cut_rule};
use link_base::{FieldShares, Levels, RuleTable};
use link_limits::{MOST_FIELDS, PER_MILLION};

/// The attained levels of one asked level of links, and what one 65,536th of each border pattern is worth: how much
/// lower a chance of a possible link any rule at the asked levels can have, in the unit of the levels.
#[derive(Clone, Copy, PartialEq, Eq)]
pub struct FrontierRow {
    pub levels: Levels,
    pub slack_m: u64,
    pub slack_u: u64,
}

ghost use Rattle.level_frontier.specs.Frontier.{FallsTo, IsFrontierRow, IsNearLeast};
ghost use Rattle.level_frontier.specs.declared.levels.FrontierRow.{FrontierRow};

/// The row of each asked level of links in `mus`, all with the asked level `lambda_ppm` of non-links, in parts per
/// million. The cells of the table are used on the way.
pub fn frontier(
    shares: &[FieldShares],
    lambda_ppm: u32,
    mus: &[u32],
    table: &mut RuleTable,
    rows: &mut [FrontierRow],
)
    requires fields { length shares.now ≤ MOST_FIELDS }
    requires mus { All (λ mu. mu ≤ PER_MILLION) mus.now }
    requires lambda { lambda_ppm ≤ PER_MILLION }
    requires size { vec_len table.old.cells ≡ pattern_count_of shares.now }
    requires rows { length rows.old ≡ length mus.now }
    ensures size { vec_len table.new.cells ≡ vec_len table.old.cells }
    ensures rows { (k : ℕ) (d : FrontierRow) → k < length mus.now
        → IsFrontierRow shares.now (slice_index mus.now k) lambda_ppm (slice_index_or rows.new k d) }

    // A higher asked level of links gives no higher chance of a possible link.
    ensures falling { (j k : ℕ) (d : FrontierRow) → j < length mus.now → k < length mus.now
        → slice_index mus.now j ≤ slice_index mus.now k
        → FallsTo (slice_index_or rows.new j d) (slice_index_or rows.new k d) }

    // No randomised rule at the asked levels does better than a row by more than its slack.
    ensures near_least { (k : ℕ) (d : FrontierRow) → k < length mus.now
        → IsNearLeast shares.now (slice_index mus.now k) lambda_ppm (slice_index_or rows.new k d) }
{
    for k in 0..mus.len() {
        rows[k] = row_of(shares, mus[k], lambda_ppm, table);
    }
}

/// The row of one asked level.
fn row_of(
    shares: &[FieldShares],
    mu_ppm: u32,
    lambda_ppm: u32,
    table: &mut RuleTable,
) -> FrontierRow
    requires fields { length shares.now ≤ MOST_FIELDS }
    requires mu { mu_ppm ≤ PER_MILLION }
    requires lambda { lambda_ppm ≤ PER_MILLION }
    requires size { vec_len table.old.cells ≡ pattern_count_of shares.now }
    ensures size { vec_len table.new.cells ≡ vec_len table.old.cells }
    ensures row { IsFrontierRow shares.now mu_ppm lambda_ppm result }
{
    cut_rule(shares, mu_ppm, lambda_ppm, table);
    let (link_m, link_u) = chances(link_border(table.cells()));
    let (nonlink_m, nonlink_u) = chances(nonlink_border(table.cells()));
    FrontierRow {
        levels: attained(shares.len() as u8, table),
        slack_m: link_m + nonlink_m,
        slack_u: link_u + nonlink_u,
    }
}
