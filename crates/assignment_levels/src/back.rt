// A look back from all ends of paths at once, and the fall of each price by its record's own distance.

use crate::level::{Level, edges_of};
use crate::lists::Lists;
use crate::numbers::{NONE, at, put};
use crate::side::{Side, let_fall};

/// The order in which records were reached, each one's place in it, and how many were.
#[derive(Drop)]
pub struct ReachOrder {
    pub(crate) order: Vec<u32>,
    pub(crate) place: Vec<u32>,
    pub(crate) count: u32,
}

impl ReachOrder {
    /// Notes that a record was reached.
    fn note(&mut self, record: u32) {
        put(&mut self.order, self.count, record);
        put(&mut self.place, record, self.count);
        self.count = self.count.saturating_add(1);
    }

    /// Reaches so many records, in the order of their numbers.
    pub(crate) fn reach_each(&mut self, records: u32) {
        self.place.fill(NONE);
        self.count = 0;
        for record in 0..records {
            self.note(record);
        }
    }
}

/// Looks back from a record of the other side, at a distance that its price is added to: the records of its edges
/// are that far and the slack.
fn look_from(
    level: Level<'_>,
    own: &Side,
    lists: &mut Lists,
    nearer: &mut [u32],
    record: u32,
    paid: u32,
) {
    for edge in edges_of(level.board.turned, level.board.turned_starts, record) {
        let value = edge.value.wrapping_shr(level.shift);
        if paid.wrapping_add(at(nearer, edge.b)) < value {
            let gain = value.wrapping_sub(paid);
            put(nearer, edge.b, gain);
            lists.take_out(edge.b);
            lists.put_at(edge.b, at(&own.price, edge.b).saturating_sub(gain));
        }
    }
}

/// Looks back from each record of the other side without a link.
fn look_from_free(
    level: Level<'_>,
    own: &Side,
    other: &Side,
    lists: &mut Lists,
    nearer: &mut [u32],
) {
    for record in 0..other.records {
        if at(&other.mate, record) == NONE {
            look_from(level, own, lists, nearer, record, at(&other.price, record));
        }
    }
}

/// Takes records by distance and looks back from their links, until so many that wait were reached. Gives the
/// distance of the last.
fn reach_waiting(
    level: Level<'_>,
    own: &Side,
    other: &Side,
    lists: &mut Lists,
    reached: &mut ReachOrder,
    nearer: &mut [u32],
    waiting: u32,
) -> u32 {
    let mut left = waiting;
    let mut last = 0u32;
    for _ in 0..own.records {
        let record = lists.take_nearest();
        if left == 0 || record == NONE {
            return last;
        }
        reached.note(record);
        last = at(&lists.dist, record);
        let mate = at(&own.mate, record);
        if mate != NONE {
            let paid = at(&other.price, mate).wrapping_add(last);
            look_from(level, own, lists, nearer, mate, paid);
        } else if at(&own.price, record) > 0 {
            left = left.saturating_sub(1);
        }
    }
    last
}

/// Puts each record at the distance of its price.
fn put_at_prices(own: &Side, lists: &mut Lists) {
    lists.clear();
    for record in 0..own.records {
        lists.put_at(record, at(&own.price, record));
    }
}

/// Looks back from all ends of paths at once, records of the other side without a link and records of this side at
/// the distance of their price, until each record that waits is reached. Each price falls by its record's own
/// distance, and at most by that of the record reached last: so each record that waited has a path of tight edges,
/// or no price. `nearer` is room for how much nearer than its price each record is.
pub(crate) fn look_back(
    level: Level<'_>,
    own: &mut Side,
    other: &mut Side,
    lists: &mut Lists,
    reached: &mut ReachOrder,
    nearer: &mut [u32],
    waiting: u32,
) {
    reached.place.fill(NONE);
    reached.count = 0;
    nearer.fill(0);
    put_at_prices(own, lists);
    look_from_free(level, own, other, lists, nearer);
    let last = reach_waiting(level, own, other, lists, reached, nearer, waiting);
    for record in 0..own.records {
        let_fall(own, other, record, at(&lists.dist, record).min(last));
    }
}
