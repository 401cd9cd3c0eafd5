// The rule of given shares and asked levels.
ghost use Rattle.std.specs.Prelude.{◌≡◌, ◌≤◌, length, vec_len, All};
ghost use Rattle.patterns.specs.Patterns.{pattern_count_of};
ghost use Rattle.link_base.specs.Rule.{IsWithinRanges};
ghost use Rattle.decision_rule.specs.Filled.{IsFilled, IsLeast};

use crate::cuts::{cut_links, cut_nonlinks};
use crate::fill::fill;
use crate::order::order;
use crate::unit::denominator;
use link_base::{FieldShares, RuleCell, RuleTable};
use link_limits::{MOST_FIELDS, PER_MILLION};

/// Fills a table with the rule of these shares and asked levels, in parts per million: the patterns in the order of
/// m/u, links from the first on as far as `mu_ppm` allows, non-links from the last back as far as `lambda_ppm` allows,
/// and possible links between. No randomised rule with levels at most the table's own has a lower chance of a possible
/// link, among matched or among unmatched pairs (Fellegi and Sunter 1969, section 2).
pub fn cut_rule(shares: &[FieldShares], mu_ppm: u32, lambda_ppm: u32, table: &mut RuleTable)
    requires fields { length shares.now ≤ MOST_FIELDS }
    requires mu { mu_ppm ≤ PER_MILLION }
    requires lambda { lambda_ppm ≤ PER_MILLION }
    requires size { vec_len table.old.cells ≡ pattern_count_of shares.now }
    ensures size { vec_len table.new.cells ≡ vec_len table.old.cells }
    ensures filled { IsFilled shares.now mu_ppm lambda_ppm table.new.cells.items }
    ensures least { IsLeast shares.now table.new.cells.items }
{
    let cells = table.cells.as_mut_slice();
    cut_cells(shares, mu_ppm, lambda_ppm, cells);
}

// The same on the cells.
fn cut_cells(shares: &[FieldShares], mu_ppm: u32, lambda_ppm: u32, cells: &mut [RuleCell])
    requires fields { length shares.now ≤ MOST_FIELDS }
    requires mu { mu_ppm ≤ PER_MILLION }
    requires lambda { lambda_ppm ≤ PER_MILLION }
    requires size { length cells.old ≡ pattern_count_of shares.now }
    ensures filled { IsFilled shares.now mu_ppm lambda_ppm cells.new }
    ensures in_range { All IsWithinRanges cells.new }
    ensures least { IsLeast shares.now cells.new }
{
    let whole = denominator(shares.len() as u8);
    fill(shares, cells);
    order(cells);
    cut_links(cells, u128::from(mu_ppm) * whole);
    cut_nonlinks(cells, u128::from(lambda_ppm) * whole);
}
