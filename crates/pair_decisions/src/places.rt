// Where the cell of each pattern stands.
ghost use Rattle.std.specs.Prelude.{◌<◌, ◌≤◌, All, IfOk, length};
ghost use Rattle.link_base.specs.declared.rule.RuleCell.{RuleCell};
ghost use Rattle.pair_decisions.specs.Places.{ArePlaces};

use link_base::{NoMemory, RuleCell};
use link_limits::MOST_PATTERNS;
use std::alloc::Global;

/// The place of the first cell of each pattern.
pub(crate) fn places_of(alloc: Global, cells: &[RuleCell]) -> Result<Vec<u16>, NoMemory>
    requires few { length cells.now ≤ MOST_PATTERNS }
    requires patterns { All (λ (c : RuleCell). c.pattern < length cells.now) cells.now }
    ensures { IfOk result (λ places. ArePlaces cells.now places.items) }
{
    let mut places = vec![in alloc; 0; cells.len()]?;
    for at in (0..cells.len()).rev() {
        places[usize::from(cells[at].pattern)] = at as u16;
    }
    Ok(places)
}
