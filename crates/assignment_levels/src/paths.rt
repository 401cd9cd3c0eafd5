// Disjoint paths over tight edges, each along records that were reached earlier and earlier.

use crate::back::ReachOrder;
use crate::level::{Level, edges_of, is_tight};
use crate::numbers::{NONE, at, put};
use crate::side::{Side, link};
use assignment_steps::Edge;

/// How many edges each record has tried, the record of the other side that it tried last, the records of the other
/// side that were met, each by the number of the round, and a path.
#[derive(Drop)]
pub struct Paths<'r> {
    pub tried: &'r mut [u32],
    pub chosen: &'r mut [u32],
    pub met: &'r mut [u32],
    pub round: u32,
    pub path: &'r mut [u32],
}

/// Where a path goes from a record: to its end, to another record, or nowhere.
#[derive(Clone, Copy)]
enum Way {
    Ends,
    Goes(u32),
    Nowhere,
}

/// Where a path goes from a record, over the first tight edge that it has not tried to a record of the other side that was not met:
/// to its end where that has no link, or one that is given up by a record of price 0; else to the record of the link, if that one
/// was reached earlier.
fn way_from(
    level: Level<'_>,
    own: &Side,
    other: &Side,
    reached: &ReachOrder,
    paths: &mut Paths<'_>,
    record: u32,
) -> Way {
    let edges = edges_of(level.board.edges, level.board.starts, record);
    let mut tried = at(paths.tried, record);
    for edge in edges.get(tried as usize..).unwrap_or_default() {
        tried = tried.saturating_add(1);
        if !is_tight(level, own, other, *edge) || at(paths.met, edge.b) == paths.round {
            continue;
        }
        let mate = at(&other.mate, edge.b);
        let is_end = mate == NONE || at(&own.price, mate) == 0;
        if is_end || at(&reached.place, mate) < at(&reached.place, record) {
            put(paths.met, edge.b, paths.round);
            put(paths.tried, record, tried);
            put(paths.chosen, record, edge.b);
            return if is_end { Way::Ends } else { Way::Goes(mate) };
        }
    }
    put(paths.tried, record, tried);
    Way::Nowhere
}

/// Seeks a path from a record, depth first, and gives how many records it has: none where there is no path.
fn seek(
    level: Level<'_>,
    own: &Side,
    other: &Side,
    reached: &ReachOrder,
    paths: &mut Paths<'_>,
    root: u32,
) -> u32 {
    let mut record = root;
    let mut above = 0u32;
    for _ in 0..level.board.edges.len() {
        match way_from(level, own, other, reached, paths, record) {
            Way::Ends => {
                put(paths.path, above, record);
                return above.saturating_add(1);
            }
            Way::Goes(mate) => {
                put(paths.path, above, record);
                above = above.saturating_add(1);
                record = mate;
            }
            Way::Nowhere if above == 0 => return 0,
            Way::Nowhere => {
                above = above.saturating_sub(1);
                record = at(paths.path, above);
            }
        }
    }
    0
}

/// Links the records of a path as it goes.
fn turn(own: &mut Side, other: &mut Side, paths: &Paths<'_>, count: u32) {
    for place in 0..count {
        let record = at(paths.path, place);
        link(own, other, record, at(paths.chosen, record));
    }
}

/// Follows paths from each record that waits, in the order in which they were reached. Each record of the other
/// side is met once.
pub(crate) fn follow_paths(
    level: Level<'_>,
    own: &mut Side,
    other: &mut Side,
    reached: &ReachOrder,
    paths: &mut Paths<'_>,
) {
    paths.tried.fill(0);
    for place in 0..reached.count {
        let root = at(&reached.order, place);
        if own.waits(root) {
            let count = seek(level, own, other, reached, paths, root);
            turn(own, other, paths, count);
        }
    }
}
