// The borders of a filled rule.
ghost use Rattle.std.specs.Prelude.{◌≡◌, ◌+◌, nat_lt};
ghost use Rattle.level_frontier.specs.Borders.{border_m, border_u, link_border_of, nonlink_border_of};

use link_base::RuleCell;
use link_limits::WHOLE_RULE;

/// The border of the links: the first cell that is not a link throughout.
pub fn link_border(cells: &[RuleCell]) -> Option<RuleCell>
    ensures { result ≡ link_border_of cells.now }
{
    cells.iter().copied().find(|c| c.link < WHOLE_RULE)
}

/// The border of the non-links: the last cell whose links and non-links leave a share of possible links.
pub fn nonlink_border(cells: &[RuleCell]) -> Option<RuleCell>
    ensures { result ≡ nonlink_border_of cells.now }
{
    cells.iter().rev().copied().find(leaves_possible)
}

/// The links and the non-links of a cell leave a share of possible links.
fn leaves_possible(cell: &RuleCell) -> bool
    ensures { result ≡ nat_lt (cell.now.link + cell.now.nonlink) WHOLE_RULE }
{
    u64::from(cell.link) + u64::from(cell.nonlink) < u64::from(WHOLE_RULE)
}

/// The chances of a border among matched and among unmatched pairs, 0 where it is missing.
pub fn chances(border: Option<RuleCell>) -> (u64, u64)
    ensures matched { result.0 ≡ border_m border }
    ensures unmatched { result.1 ≡ border_u border }
{
    match border {
        Some(c) => (c.m, c.u),
        None => (0, 0),
    }
}
