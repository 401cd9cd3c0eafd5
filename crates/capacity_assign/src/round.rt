// All of a solution: links over tight edges, and every record of A taken up in turn, by which prices change and links are turned
// round.
ghost use Rattle.std.specs.Prelude.{◌≡◌, ◌+◌, ◌<◌, length, None, MatchOption};
ghost use Rattle.assignment_steps.specs.Market.{AreLinked, IsInRange, link, AreTight, AreListed};
ghost use Rattle.capacity_assign.specs.Seating.{AreAlike, TurnsRound, AreSeats, HasPlace, seating};
ghost use Rattle.assignment_steps.specs.Reached.{IsAtRest};
ghost use Rattle.assignment_steps.specs.Ways.{LeadsFromEnd};
ghost use Rattle.capacity_assign.specs.Round.{Advances, IsBetweenRounds};

use crate::grow::search;
use crate::market::{Ground, Hole, Seats, Tree};
use crate::seats::{add_seat, link_tight, walk};
use assignment_steps::{Edge, Field, MaybeEdge, Net, Ways, has_link, link_of};

/// Turns the links round from where a tree ended: at a record of B with a place left, or at a record of A that
/// gives its link up.
fn turn(
    net: Net<'_>,
    ways: Ways<'_>,
    link_a: &mut [MaybeEdge],
    seats: &mut Seats,
    free: Option<usize>,
    last: usize,
)
    requires in_range { IsInRange net.edges.now (length link_a.old) (length seats.old.left.items) }
    requires linked { AreLinked net.edges.now link_a.old }
    requires tight { AreTight net.edges.now net.price_a.now net.price_b.now link_a.old }
    requires seats { AreSeats net.edges.now link_a.old (seating seats.old) }
    requires root { (ways.root < length link_a.old) × (link link_a.old ways.root ≡ None) }
    requires last { MatchOption free (last < length link_a.old) (λ _. Unit {0}) }
    requires free { MatchOption free (Unit {0}) (HasPlace seats.old.left.items) }
    requires leads { LeadsFromEnd net ways link_a.old free last }
    ensures { TurnsRound net.entry.edges.now net.entry.price_a.now net.entry.price_b.now ways.entry.root free last link_a.old seats.old.left.items link_a.new (seating seats.new) }
{
    if let Some(b) = free {
        let seat = add_seat(seats, b);
        let hole = Hole { b, seat };
        walk(net, ways, link_a, &mut seats.seat, &mut seats.sitter, hole);
        return;
    }
    let Some(k) = link_of(link_a, last) else {
        return;
    };
    let hole = Hole {
        b: net.edges[k].b as usize,
        seat: seats.seat[last],
    };
    link_a[last] = MaybeEdge::none();
    walk(net, ways, link_a, &mut seats.seat, &mut seats.sitter, hole);
}

/// Takes a record of A up. If it has no link, a tree grows from it, prices change by it, and links are turned round: afterwards
/// it is linked, or its price is 0.
fn take_up<'a>(
    edges: &'a [Edge],
    starts: &'a [u32],
    price_a: &mut [u32],
    price_b: &mut [u32],
    link_a: &mut [MaybeEdge],
    seats: &mut Seats,
    like: &'a [usize],
    tree: &mut Tree,
    root: usize,
)
    requires listed { AreListed edges.now (length price_a.old) starts.now }
    requires root { root < length price_a.old }
    requires alike { AreAlike edges.now (length price_a.old) like.now }
    requires between { IsBetweenRounds edges.now price_a.old price_b.old link_a.old (seating seats.old) root }
    requires tree { IsAtRest (length price_a.old) (length price_b.old) (length edges.now) tree.old.reached }
    ensures advances { Advances edges.now link_a.old seats.old.left.items price_a.new price_b.new link_a.new (seating seats.new) (root + 1) }
    ensures tree { IsAtRest (length price_a.new) (length price_b.new) (length edges.now) tree.new.reached }
{
    if has_link(link_a, root) {
        return;
    }
    let field = Field {
        edges,
        starts,
        price_a,
        price_b,
        link_a,
        root,
    };
    let ground = Ground { field, seats, like };
    let grown = search(ground, tree);
    tree.reached.shift(price_a, price_b, grown.end);
    let net = Net {
        edges,
        price_a,
        price_b,
    };
    let ways = Ways {
        root,
        from: &tree.reached.from,
        rank: &tree.reached.rank,
    };
    turn(net, ways, link_a, seats, grown.free, grown.last);
}

/// Links what is tight at first, and takes every record of A up in turn.
pub fn all_rounds(
    edges: &[Edge],
    starts: &[u32],
    price_a: &mut [u32],
    price_b: &mut [u32],
    link_a: &mut [MaybeEdge],
    seats: &mut Seats,
    like: &[usize],
    tree: &mut Tree,
)
    requires listed { AreListed edges.now (length price_a.old) starts.now }
    requires between { IsBetweenRounds edges.now price_a.old price_b.old link_a.old (seating seats.old) 0 }
    requires alike { AreAlike edges.now (length price_a.old) like.now }
    requires tree { IsAtRest (length price_a.old) (length price_b.old) (length edges.now) tree.old.reached }
    ensures { Advances edges.now link_a.old seats.old.left.items price_a.new price_b.new link_a.new (seating seats.new) (length price_a.new) }
{
    let net = Net {
        edges,
        price_a,
        price_b,
    };
    link_tight(net, link_a, seats);
    for root in 0..price_a.len() {
        take_up(
            edges, starts, price_a, price_b, link_a, seats, like, tree, root,
        );
    }
}
