// Rounds: a look back, paths, and searches from the records that still wait.

use crate::back::{ReachOrder, look_back};
use crate::level::{Level, link_tight};
use crate::lists::Lists;
use crate::numbers::{at, fill_up};
use crate::paths::{Paths, follow_paths};
use crate::search::{Tree, search};
use crate::side::Side;
use link_base::NoMemory;
use std::alloc::Global;

/// What searches that settled few are allowed the next time: a part of the edges.
const SMALL_PART: usize = 16;

/// So few records that wait are no reason to give up.
const FEW: u32 = 16;

/// Room for a look back, paths and searches.
#[derive(Drop)]
pub struct Room {
    lists: Lists,
    reached: ReachOrder,
    tree: Tree,
}

impl Room {
    /// Room for so many records.
    pub(crate) fn new(alloc: Global, records: u32) -> Result<Room, NoMemory> {
        Ok(Room {
            lists: Lists::new(alloc, records)?,
            reached: ReachOrder {
                order: Vec::with_capacity(alloc, records as usize)?,
                place: Vec::with_capacity(alloc, records as usize)?,
                count: 0,
            },
            tree: Tree::new(alloc, records)?,
        })
    }

    /// Puts so many records there.
    pub(crate) fn fill(&mut self, records: u32) {
        self.lists.fill();
        fill_up(&mut self.reached.order, records);
        fill_up(&mut self.reached.place, records);
        fill_up(&mut self.tree.mark, records);
        fill_up(&mut self.tree.from, records);
        fill_up(&mut self.tree.joined, records);
    }
}

/// Searches from those records that wait, in the order in which they were reached, as long as looks are left.
fn search_in_order(level: Level<'_>, own: &mut Side, other: &mut Side, room: &mut Room) {
    for place in 0..room.reached.count {
        if room.tree.looks == 0 {
            return;
        }
        let root = at(&room.reached.order, place);
        if own.waits(root) {
            search(level, own, other, &mut room.lists, &mut room.tree, root);
        }
    }
}

/// Settles the records of a side: links over tight edges, searches from the records in their order, and rounds until at most so
/// many still wait.
pub(crate) fn settle(
    level: Level<'_>,
    own: &mut Side,
    other: &mut Side,
    room: &mut Room,
    most: u32,
) {
    link_tight(level, own, other);
    room.reached.reach_each(own.records);
    room.tree.looks = level.board.edges.len() / 2;
    search_in_order(level, own, other, room);
    run_rounds(level, own, other, room, most, true);
}

/// One round, with so many records that wait and so many looks. Says whether its searches settled few records
/// beside its paths.
fn run_round(
    level: Level<'_>,
    own: &mut Side,
    other: &mut Side,
    room: &mut Room,
    count: u32,
    looks: usize,
) -> bool {
    look_back(
        level,
        own,
        other,
        &mut room.lists,
        &mut room.reached,
        &mut room.tree.joined,
        count,
    );
    room.tree.number = room.tree.number.wrapping_add(1);
    let mut paths = Paths {
        tried: &mut room.lists.dist,
        chosen: &mut room.tree.from,
        met: &mut room.tree.mark,
        round: room.tree.number,
        path: &mut room.tree.joined,
    };
    follow_paths(level, own, other, &room.reached, &mut paths);
    let left = own.waiting();
    room.tree.looks = looks;
    search_in_order(level, own, other, room);
    let searched = left.saturating_sub(own.waiting());
    searched.saturating_mul(32) < count.saturating_sub(left)
}

/// Rounds until at most so many records wait, or until three were slow, if it is not patient: a round is slow
/// that settles less than an eighth of the records that waited. Says whether the rounds came to their end.
pub(crate) fn run_rounds(
    level: Level<'_>,
    own: &mut Side,
    other: &mut Side,
    room: &mut Room,
    most: u32,
    is_patient: bool,
) -> bool {
    let whole = level.board.edges.len();
    let mut looks = whole;
    let mut count = own.waiting();
    let mut slow = 0u32;
    for _ in 0..own.records {
        if count <= most {
            return true;
        }
        let is_small = run_round(level, own, other, room, count, looks);
        looks = if is_small { whole / SMALL_PART } else { whole };
        let left = own.waiting();
        if left > FEW && left > count - count / 8 {
            slow = slow.saturating_add(1);
        }
        if slow == 3 && !is_patient {
            return false;
        }
        count = left;
    }
    true
}
