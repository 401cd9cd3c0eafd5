// The growth of a tree.
ghost use Rattle.std.specs.Prelude.{◌≡◌, ◌+◌, ◌<◌, ◌≤◌, ℕ, length, ◌∷◌, None, Some, IsTrue};
ghost use Rattle.link_limits.specs.declared.TheConstants.{MOST_VALUE};
ghost use Rattle.assignment_steps.specs.Market.{number, distance, far};
ghost use Rattle.capacity_assign.specs.Growth.{Grows, HasSearched, IsReady, IsTree, IsTwin, JoinsSeat, JoinsTree, Relaxes, Settles, growth, places_left, with_waiting};
ghost use Rattle.assignment_steps.specs.Spread.{IsNearest, edge_of, spread};
ghost use Rattle.assignment_steps.specs.Reached.{FitsQueue, HasRoomForRecords, IsAtRest};

use crate::market::{Ground, Tree};
use assignment_steps::{FARTHEST, Grown, Near};

/// Notes a shorter way over the edge `k` from its record of A, which joined the tree last.
fn relax(ground: Ground<'_>, tree: &mut Tree, k: usize)
    requires place { k < length ground.field.edges.now }
    requires last { distance tree.old.reached.dist_a.items (edge_of ground.field k).a ≡ tree.old.reached.current }
    requires grows { Grows ground (edge_of ground.field k).a k tree.old }
    ensures { Relaxes ground.entry (edge_of ground.entry.field k).a k (k + 1) tree.old tree.new }
{
    let Some(far) = tree.reached.nearer_over(ground.field, k) else {
        return;
    };
    let b = ground.field.edges[k].b as usize;
    let first = ground.seats.left[b] > 0;
    tree.reached.reach(b, k as u32, far, first);
}

/// A record of A joins the tree at a distance, which is the newest.
fn join(ground: Ground<'_>, tree: &mut Tree, position: usize, dist: u32)
    requires ready { IsReady ground }
    requires in_range { position < length ground.field.price_a.now }
    requires small { dist ≤ MOST_VALUE }
    requires room { HasRoomForRecords (length ground.field.price_a.now) (length ground.field.price_b.now) tree.old.reached }
    requires new { distance tree.old.reached.dist_a.items position ≡ far }
    ensures { JoinsTree ground.entry tree.old tree.new position dist }
{
    let price = ground.field.price_a[position];
    let _ = tree.reached.join(position, dist, price);
}

/// Relaxes the edges of the record of A that joined last.
fn relax_record(ground: Ground<'_>, tree: &mut Tree, position: usize)
    requires inside { position < length ground.field.price_a.now }
    requires last { distance tree.old.reached.dist_a.items position ≡ tree.old.reached.current }
    requires grows { Grows ground position 0 tree.old }
    ensures { Relaxes ground.entry position 0 (length ground.entry.field.edges.now) tree.old tree.new }
{
    let mut k = ground.field.starts[position] as usize;
    while k < ground.field.edges.len() && ground.field.edges[k].a as usize == position {
        relax(ground, tree, k);
        k += 1;
    }
}

/// Whether a record of A with the edges and the price of another has joined at that one's distance, by what is noted.
fn has_twin(ground: Ground<'_>, tree: &Tree, position: usize) -> bool
    requires inside { position < length ground.field.price_a.now }
    requires ready { IsReady ground }
    requires room { HasRoomForRecords (length ground.field.price_a.now) (length ground.field.price_b.now) tree.now.reached }
    ensures { IsTrue result → (twin : ℕ) × IsTwin ground.entry (spread tree.now.reached) position twin }
{
    let like = ground.like[position];
    if like >= tree.twin.len() {
        return false;
    }
    let twin = tree.twin[like];
    if twin == position || twin >= ground.like.len() || ground.like[twin] != like {
        return false;
    }
    if tree.reached.dist_a[twin] != tree.reached.dist_a[position] {
        return false;
    }
    ground.field.price_a[twin] == ground.field.price_a[position]
}

/// Notes that the edges of a record of A are relaxed.
fn note_twin(ground: Ground<'_>, tree: &mut Tree, position: usize)
    requires inside { position < length ground.like.now }
    ensures rest { tree.new ≡ record tree.old { twin = tree.new.twin } }
{
    let like = ground.like[position];
    if like < tree.twin.len() {
        tree.twin[like] = position;
    }
}

/// Relaxes the edges of the record of A that joined last, where those of no record that is like it are.
fn relax_joined(ground: Ground<'_>, tree: &mut Tree, position: usize)
    requires inside { position < length ground.field.price_a.now }
    requires last { distance tree.old.reached.dist_a.items position ≡ tree.old.reached.current }
    requires grows { Grows ground position 0 tree.old }
    ensures { Relaxes ground.entry position 0 (length ground.entry.field.edges.now) tree.old tree.new }
{
    if has_twin(ground, tree, position) {
        return;
    }
    relax_record(ground, tree, position);
    note_twin(ground, tree, position);
}

/// The record of A at the seat `n` of the record of B that is held joins the tree, at the distance of its newest
/// record, where it has not joined yet, and its edges are relaxed.
fn join_seat(ground: Ground<'_>, tree: &mut Tree, n: usize)
    requires seat { n < ground.seats.now.count }
    requires owned { tree.old.held ≡ Some (number ground.seats.now.owner.items n) }
    requires grows { Grows ground 0 (length ground.field.edges.now) tree.old }
    ensures { JoinsSeat ground.entry n tree.old tree.new }
{
    let position = ground.seats.sitter[n];
    if tree.reached.dist_a[position] != FARTHEST {
        return;
    }
    let dist = tree.reached.current;
    join(ground, tree, position, dist);
    relax_joined(ground, tree, position);
}

/// The record of B that is the nearest, and has no place left, is held until the records of A that are linked to it have joined
/// the tree one after the other; false where an end that is as near comes first.
fn settle(ground: Ground<'_>, tree: &mut Tree, near: Near) -> bool
    requires ready { IsReady ground }
    requires inside { near.position < length ground.field.price_b.now }
    requires full { places_left ground near.position ≡ 0 }
    requires useful { near.distance < tree.old.reached.best }
    requires exact { distance tree.old.reached.dist_b.items near.position ≡ near.distance }
    requires nearest { IsNearest ((near.distance, near.position) ∷ tree.old.reached.frontier.waiting) near }
    requires held { tree.old.held ≡ None }
    requires tree { IsTree ground 0 (length ground.field.edges.now) (with_waiting ((near.distance, near.position) ∷ tree.old.reached.frontier.waiting) (growth tree.old)) }
    requires room { HasRoomForRecords (length ground.field.price_a.now) (length ground.field.price_b.now) tree.old.reached }
    requires queue { FitsQueue ground.field.edges.now 0 (length ground.field.edges.now) tree.old.reached }
    ensures { Settles ground.entry result tree.old tree.new }
{
    tree.reached.current = near.distance;
    tree.held = Some(near.position);
    let mut next = ground.seats.last[near.position];
    while let Some(n) = next {
        if tree.reached.best <= near.distance {
            return false;
        }
        join_seat(ground, tree, n);
        next = ground.seats.earlier[n];
    }
    tree.held = None;
    true
}

/// Grows the tree until a record of B with a place left is the nearest, or no record of B is nearer than an end
/// at a record of A.
pub fn grow(ground: Ground<'_>, tree: &mut Tree) -> Grown
    requires held { tree.old.held ≡ None }
    requires grows { Grows ground 0 (length ground.field.edges.now) tree.old }
    ensures { HasSearched ground.entry tree.old tree.new result }
{
    while let Some(near) = tree.reached.frontier.take() {
        if tree.reached.best <= near.distance {
            return tree.reached.nearest_end(None);
        }
        if tree.reached.dist_b[near.position] < near.distance {
            continue;
        }
        if ground.seats.left[near.position] > 0 {
            return Grown {
                end: near.distance,
                free: Some(near.position),
                last: ground.field.root,
            };
        }
        if !settle(ground, tree, near) {
            return tree.reached.nearest_end(None);
        }
    }
    tree.reached.nearest_end(None)
}

/// The whole growth of a tree from its root.
pub fn search(ground: Ground<'_>, tree: &mut Tree) -> Grown
    requires ready { IsReady ground }
    requires rest { IsAtRest (length ground.field.price_a.now) (length ground.field.price_b.now) (length ground.field.edges.now) tree.old.reached }
    ensures { HasSearched ground.entry tree.old tree.new result }
{
    tree.reached.best = FARTHEST;
    tree.held = None;
    join(ground, tree, ground.field.root, 0);
    relax_record(ground, tree, ground.field.root);
    grow(ground, tree)
}
