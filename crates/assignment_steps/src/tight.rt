// Links that are taken over tight edges.
ghost use Rattle.std.specs.Prelude.{◌<◌, length};
ghost use Rattle.assignment_steps.specs.Between.{IsBetween, AreSettled, HasLink, TriesEdge};

use crate::market::Net;
use crate::maybe_edge::{MaybeEdge, has_link};

/// Links the records of the edge `k` where neither has a link and their prices add up to its value.
fn take(net: Net<'_>, link_a: &mut [MaybeEdge], link_b: &mut [MaybeEdge], k: usize)
    requires place { k < length net.edges.now }
    requires between { IsBetween net.edges.now net.price_a.now net.price_b.now link_a.old link_b.old 0 }
    ensures { TriesEdge net.entry.edges.now net.entry.price_a.now net.entry.price_b.now k link_a.old link_b.old link_a.new link_b.new }
{
    let edge = net.edges[k];
    let a = edge.a as usize;
    let b = edge.b as usize;
    if has_link(link_a, a) {
        return;
    }
    if has_link(link_b, b) {
        return;
    }
    if net.price_a[a] + net.price_b[b] != edge.value {
        return;
    }
    link_a[a] = MaybeEdge::at(k);
    link_b[b] = MaybeEdge::at(k);
}

/// Links records without links over tight edges, in the order of the edges, until no tight edge joins two such records.
pub fn link_tight(net: Net<'_>, link_a: &mut [MaybeEdge], link_b: &mut [MaybeEdge])
    requires { IsBetween net.edges.now net.price_a.now net.price_b.now link_a.old link_b.old 0 }
    ensures between { IsBetween net.entry.edges.now net.entry.price_a.now net.entry.price_b.now link_a.new link_b.new 0 }
    ensures settled { AreSettled net.entry.edges.now net.entry.price_a.now net.entry.price_b.now link_a.new (HasLink link_b.new) (length net.entry.edges.now) }
{
    for k in 0..net.edges.len() {
        take(net, link_a, link_b, k);
    }
}
