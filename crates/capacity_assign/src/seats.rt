// Seats that are added, and records of A that move from one to another: along the way to a root, and over tight edges.
ghost use Rattle.std.specs.Prelude.{◌≡◌, ◌<◌, ◌≤◌, ℕ, length, Some, vec_len};
ghost use Rattle.assignment_steps.specs.Market.{AreLinked, AreTight, edge, link, number};
ghost use Rattle.assignment_steps.specs.Ways.{Leads};
ghost use Rattle.capacity_assign.specs.Seating.{Reseats, WalksBack, AddsSeat, seating};
ghost use Rattle.capacity_assign.specs.Round.{AreTried, IsBetweenRounds, TriesEdge};

use crate::market::{Hole, Seats};
use assignment_steps::{Edge, MaybeEdge, Net, Ways, has_link, link_of};
use link_limits::MOST_PAIRS;

/// Adds a seat at a record of B that has a place left, and gives its number.
pub fn add_seat(seats: &mut Seats, b: usize) -> usize
    requires owner { seats.old.count < vec_len seats.old.owner }
    requires earlier { seats.old.count < vec_len seats.old.earlier }
    requires last { b < vec_len seats.old.last }
    requires left { b < vec_len seats.old.left }
    requires vacant { 0 < number seats.old.left.items b }
    ensures next { result ≡ seats.old.count }
    ensures adds { AddsSeat (seating seats.old) (seating seats.new) b }
{
    let seat = seats.count;
    seats.owner[seat] = b;
    seats.earlier[seat] = seats.last[b];
    seats.last[b] = Some(seat);
    seats.left[b] -= 1;
    seats.count = seat + 1;
    seat
}

/// Links the record of A of the edge `k` by it, at a seat that nobody has, and gives the seat that it leaves.
fn reseat(
    edges: &[Edge],
    link_a: &mut [MaybeEdge],
    seat: &mut [usize],
    sitter: &mut [usize],
    k: usize,
    free: usize,
) -> Option<Hole>
    requires place { k < length edges.now }
    requires few { length edges.now ≤ MOST_PAIRS }
    requires in_range { (edge edges.now k).a < length link_a.old }
    requires linked { AreLinked edges.now link_a.old }
    requires records { length seat.old ≡ length link_a.old }
    requires free { free < length sitter.old }
    ensures { Reseats edges.now link_a.old seat.old sitter.old link_a.new seat.new sitter.new k free result }
{
    let edge = edges[k];
    let a = edge.a as usize;
    let old = link_of(link_a, a);
    let left = seat[a];
    link_a[a] = MaybeEdge::at(k);
    seat[a] = free;
    sitter[free] = a;
    match old {
        None => None,
        Some(j) => Some(Hole {
            b: edges[j].b as usize,
            seat: left,
        }),
    }
}

/// Turns the links round along the way from a record of B, at which a seat is nobody's, to the root.
pub fn walk(
    net: Net<'_>,
    ways: Ways<'_>,
    link_a: &mut [MaybeEdge],
    seat: &mut [usize],
    sitter: &mut [usize],
    hole: Hole,
)
    requires few { length net.edges.now ≤ MOST_PAIRS }
    requires in_range { (k : ℕ) → k < length net.edges.now → (edge net.edges.now k).a < length link_a.old }
    requires linked { AreLinked net.edges.now link_a.old }
    requires tight { AreTight net.edges.now net.price_a.now net.price_b.now link_a.old }
    requires records { length seat.old ≡ length link_a.old }
    requires seats { (a k : ℕ) → link link_a.old a ≡ Some k → number seat.old a < length sitter.old }
    requires there { hole.seat < length sitter.old }
    requires leads { (n : ℕ) × Leads net.edges.now net.price_a.now net.price_b.now link_a.old ways.from.now ways.rank.now ways.root n hole.b }
    ensures { WalksBack net.entry.edges.now net.entry.price_a.now net.entry.price_b.now ways.entry.root hole link_a.old seat.old sitter.old link_a.new seat.new sitter.new }
{
    let mut free = hole;
    while let Some(left) = reseat(
        net.edges,
        link_a,
        seat,
        sitter,
        ways.from[free.b] as usize,
        free.seat,
    ) {
        free = left;
    }
}

/// Links the records of the edge `k` where that of A has no link, that of B has a place left, and their
/// prices add up to its value.
fn link_if_tight(net: Net<'_>, link_a: &mut [MaybeEdge], seats: &mut Seats, k: usize)
    requires place { k < length net.edges.now }
    requires between { IsBetweenRounds net.edges.now net.price_a.now net.price_b.now link_a.old (seating seats.old) 0 }
    ensures { TriesEdge net.entry.edges.now net.entry.price_a.now net.entry.price_b.now k link_a.old seats.old.left.items link_a.new (seating seats.new) }
{
    let edge = net.edges[k];
    let a = edge.a as usize;
    let b = edge.b as usize;
    if has_link(link_a, a) {
        return;
    }
    if seats.left[b] == 0 {
        return;
    }
    if net.price_a[a] + net.price_b[b] != edge.value {
        return;
    }
    let free = add_seat(seats, b);
    let _ = reseat(
        net.edges,
        link_a,
        &mut seats.seat,
        &mut seats.sitter,
        k,
        free,
    );
}

/// Links records over tight edges, in the order of the edges, until no tight edge joins a record of A without a
/// link to a record of B with a place left.
pub fn link_tight(net: Net<'_>, link_a: &mut [MaybeEdge], seats: &mut Seats)
    requires { IsBetweenRounds net.edges.now net.price_a.now net.price_b.now link_a.old (seating seats.old) 0 }
    ensures { AreTried net.entry.edges.now net.entry.price_a.now net.entry.price_b.now (length net.entry.edges.now) link_a.old seats.old.left.items link_a.new (seating seats.new) }
{
    for k in 0..net.edges.len() {
        link_if_tight(net, link_a, seats, k);
    }
}
