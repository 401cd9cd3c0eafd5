// The cuts of the links and the non-links.
ghost use Rattle.std.specs.Prelude.{◌≡◌, ◌+◌, ◌-◌, ◌*◌, ◌/◌, ◌≤◌, ◌<◌, map, reverse, min, All};
ghost use Rattle.decision_rule.specs.Filled.{chances_of, LinksAreCut, NonlinksAreCut};
ghost use Rattle.decision_rule.specs.Walk.{room_after};
ghost use Rattle.link_base.specs.declared.rule.RuleCell.{RuleCell};

use link_base::RuleCell;
use link_limits::{PER_MILLION, WHOLE_RULE};

/// The share of a cell for which there is room, up to its bound, and the room that this leaves: none past a cell that
/// could not have all.
fn give(bound: u32, weight: u64, room: u128) -> (u32, u128)
    requires { 0 < weight }
    ensures share { result.0 ≡ min bound (room / weight) }
    ensures left { result.1 ≡ room_after result.0 bound weight room }
{
    let most = room / u128::from(weight);
    if most < u128::from(bound) {
        (most as u32, 0)
    } else {
        (bound, room - u128::from(weight) * u128::from(bound))
    }
}

/// Gives the link shares from the first cell on. What is asked is in millionths.
pub fn cut_links(cells: &mut [RuleCell], asked: u128)
    requires { All (λ (c : RuleCell). 0 < c.u) cells.old }
    ensures chances { map chances_of cells.new ≡ map chances_of cells.old }
    ensures bound { All (λ (c : RuleCell). c.link ≤ WHOLE_RULE) cells.new }
    ensures cut { LinksAreCut asked cells.new }
{
    let mut room = asked / u128::from(PER_MILLION);
    for i in 0..cells.len() {
        let cell = &mut cells[i];
        let (share, left) = give(WHOLE_RULE, cell.u, room);
        cell.link = share;
        room = left;
    }
}

/// Gives the non-link shares from the last cell on, within what the links leave. What is asked is in millionths.
pub fn cut_nonlinks(cells: &mut [RuleCell], asked: u128)
    requires weights { All (λ (c : RuleCell). 0 < c.m) cells.old }
    requires links { All (λ (c : RuleCell). c.link ≤ WHOLE_RULE) cells.old }
    ensures chances { map chances_of cells.new ≡ map chances_of cells.old }
    ensures same_links { map (λ (c : RuleCell). c.link) cells.new ≡ map (λ (c : RuleCell). c.link) cells.old }
    ensures bound { All (λ (c : RuleCell). c.link + c.nonlink ≤ WHOLE_RULE) cells.new }
    ensures cut { NonlinksAreCut asked (reverse cells.new) }
{
    let mut room = asked / u128::from(PER_MILLION);
    let mut i = cells.len();
    while i > 0 {
        i -= 1;
        let cell = &mut cells[i];
        let (share, left) = give(WHOLE_RULE - cell.link, cell.m, room);
        cell.nonlink = share;
        room = left;
    }
}
