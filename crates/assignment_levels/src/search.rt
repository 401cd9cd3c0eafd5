// A search from one record for the nearest end of a path.

use crate::level::{Level, edges_of};
use crate::lists::Lists;
use crate::numbers::{NONE, at, put};
use crate::side::{Side, let_fall};
use link_base::NoMemory;
use std::alloc::Global;

/// A tree as it grows: by which search each record was reached last, from which record, the records in the order in
/// which they joined and how many, the distance of the newest, and the nearest end so far. That end is the
/// record `end`, over its record `free` of the other side, or, where that is none, by giving up its link. `looks`
/// is how many edges may still be looked at. Between searches a look back and paths have its room.
#[derive(Drop)]
pub struct Tree {
    pub(crate) number: u32,
    pub(crate) mark: Vec<u32>,
    pub(crate) from: Vec<u32>,
    pub(crate) joined: Vec<u32>,
    count: u32,
    current: u32,
    bound: u32,
    end: u32,
    free: u32,
    pub(crate) looks: usize,
}

impl Tree {
    /// Room for so many records.
    pub(crate) fn new(alloc: Global, records: u32) -> Result<Tree, NoMemory> {
        Ok(Tree {
            number: 0,
            mark: Vec::with_capacity(alloc, records as usize)?,
            from: Vec::with_capacity(alloc, records as usize)?,
            joined: Vec::with_capacity(alloc, records as usize)?,
            count: 0,
            current: 0,
            bound: 0,
            end: 0,
            free: NONE,
            looks: 0,
        })
    }

    /// Notes a record that joins at the distance `current`.
    fn join(&mut self, record: u32) {
        put(&mut self.joined, self.count, record);
        self.count = self.count.saturating_add(1);
    }

    /// Keeps the nearer end: a record that gives its link up.
    fn offer(&mut self, record: u32, distance: u32) {
        if distance < self.bound {
            self.bound = distance;
            self.end = record;
            self.free = NONE;
        }
    }

    /// Reaches a record at a distance, from another; at the distance `current` it joins at once.
    fn reach(&mut self, lists: &mut Lists, record: u32, from: u32, distance: u32) {
        if at(&self.mark, record) == self.number {
            if at(&lists.dist, record) <= distance {
                return;
            }
            lists.take_out(record);
        }
        put(&mut self.mark, record, self.number);
        put(&mut self.from, record, from);
        if distance == self.current {
            put(&mut lists.dist, record, distance);
            self.join(record);
        } else {
            lists.put_at(record, distance);
        }
    }

    /// Takes the nearest record that is nearer than the bound, and says whether there was one.
    fn join_nearest(&mut self, lists: &mut Lists) -> bool {
        let record = lists.take_nearest();
        if record == NONE || at(&lists.dist, record) >= self.bound {
            return false;
        }
        self.current = at(&lists.dist, record);
        self.join(record);
        true
    }
}

/// Looks at the edges of a record that joined, until the nearest end is no farther than the record.
fn scan(
    level: Level<'_>,
    own: &Side,
    other: &Side,
    lists: &mut Lists,
    tree: &mut Tree,
    record: u32,
) {
    let edges = edges_of(level.board.edges, level.board.starts, record);
    let base = tree.current.wrapping_add(at(&own.price, record));
    tree.looks = tree.looks.saturating_sub(edges.len());
    for edge in edges {
        let paid = base.wrapping_add(at(&other.price, edge.b));
        let distance = paid.wrapping_sub(edge.value.wrapping_shr(level.shift));
        if distance < tree.bound {
            let mate = at(&other.mate, edge.b);
            if mate == NONE {
                tree.offer(record, distance);
                tree.free = edge.b;
            } else {
                tree.reach(lists, mate, record, distance);
            }
        }
        if tree.bound <= tree.current {
            return;
        }
    }
}

/// Grows a tree from a record until no record is nearer than the nearest end. Says whether it did, before no looks were left.
fn grow(
    level: Level<'_>,
    own: &Side,
    other: &Side,
    lists: &mut Lists,
    tree: &mut Tree,
    root: u32,
) -> bool {
    lists.clear();
    put(&mut lists.dist, root, 0);
    tree.number = tree.number.wrapping_add(1);
    put(&mut tree.mark, root, tree.number);
    tree.count = 0;
    tree.current = 0;
    tree.bound = at(&own.price, root);
    tree.end = root;
    tree.free = NONE;
    tree.join(root);
    for place in 0..own.records {
        if place == tree.count && !tree.join_nearest(lists) {
            return true;
        }
        if tree.looks == 0 {
            return false;
        }
        let record = at(&tree.joined, place);
        let distance = tree.current.wrapping_add(at(&own.price, record));
        tree.offer(record, distance);
        scan(level, own, other, lists, tree, record);
        if tree.bound <= tree.current {
            return true;
        }
    }
    true
}

/// Turns the links round along the way from the end of a tree to its root. The record of the other side at the end is one without
/// a link, or the one that is given up.
fn turn(own: &mut Side, other: &mut Side, tree: &Tree, root: u32) {
    let mut record = tree.end;
    let mut mate = tree.free;
    if mate == NONE {
        mate = at(&own.mate, record);
        put(&mut own.mate, record, NONE);
        record = at(&tree.from, record);
    }
    if mate == NONE {
        return;
    }
    for _ in 0..tree.count {
        let before = at(&own.mate, record);
        put(&mut own.mate, record, mate);
        put(&mut other.mate, mate, record);
        if record == root {
            return;
        }
        mate = before;
        record = at(&tree.from, record);
    }
}

/// Searches from a record for the nearest end of a path, lets prices fall and turns links round. Where no looks
/// are left before an end is found, prices and links stay.
pub(crate) fn search(
    level: Level<'_>,
    own: &mut Side,
    other: &mut Side,
    lists: &mut Lists,
    tree: &mut Tree,
    root: u32,
) {
    if !grow(level, own, other, lists, tree, root) {
        return;
    }
    for place in 0..tree.count {
        let record = at(&tree.joined, place);
        let fall = tree.bound.saturating_sub(at(&lists.dist, record));
        let_fall(own, other, record, fall);
    }
    turn(own, other, tree, root);
}
