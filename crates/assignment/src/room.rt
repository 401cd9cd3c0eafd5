// Room for all that a side does, and prices and links that are proposed.
ghost use Rattle.std.specs.Prelude.{◌≡◌, IfOk, None, length, replicate};
ghost use Rattle.assignment_steps.specs.Between.{IsBetween, IsFor};
ghost use Rattle.assignment_steps.specs.Reached.{IsAtRest};

use crate::market::Tree;
use assignment_levels::Proposer;
use assignment_steps::{Board, Edge, MaybeEdge, Reached, adopt_proposal};
use link_base::NoMemory;
use std::alloc::Global;

/// Room for a proposal, and for its links as links of the edges. It is not touched before one is asked for.
#[derive(Drop)]
pub struct Spare {
    proposer: Proposer,
    link_a: Vec<MaybeEdge>,
    link_b: Vec<MaybeEdge>,
}

impl Spare {
    /// Room for so many records.
    fn new(alloc: Global, rows_a: usize, rows_b: usize) -> Result<Spare, NoMemory> {
        let link_a = Vec::with_capacity(alloc, rows_a)?;
        let link_b = Vec::with_capacity(alloc, rows_b)?;
        match Proposer::new(alloc, rows_a, rows_b) {
            Ok(proposer) => Ok(Spare {
                proposer,
                link_a,
                link_b,
            }),
            Err(error) => {
                drop(link_a);
                drop(link_b);
                Err(error)
            }
        }
    }
}

/// Puts so many records without a link there, within the room that was taken.
fn put_free(links: &mut Vec<MaybeEdge>, records: usize) {
    for _ in links.len()..records {
        if links.len() >= links.capacity() {
            return;
        }
        let Ok(()) = links.push(MaybeEdge::none()) else {
            return;
        };
    }
}

/// Lets prices and links be proposed, and takes them over where they serve.
pub fn take_proposal(
    board: Board<'_>,
    price_a: &mut [u32],
    price_b: &mut [u32],
    link_a: &mut [MaybeEdge],
    link_b: &mut [MaybeEdge],
    spare: &mut Spare,
)
    requires between { IsBetween board.edges.now price_a.old price_b.old link_a.old link_b.old 0 }
    ensures between { IsBetween board.entry.edges.now price_a.new price_b.new link_a.new link_b.new 0 }
    ensures adopted { IsFor (length price_a.old) (length price_b.old) spare.new.proposer.price_a spare.new.proposer.price_b spare.new.link_a.items spare.new.link_b.items → IsBetween board.entry.edges.now spare.new.proposer.price_a spare.new.proposer.price_b spare.new.link_a.items spare.new.link_b.items 0 → (price_a.new ≡ spare.new.proposer.price_a) × (price_b.new ≡ spare.new.proposer.price_b) × (link_a.new ≡ spare.new.link_a.items) × (link_b.new ≡ spare.new.link_b.items) }
{
    put_free(&mut spare.link_a, price_a.len());
    put_free(&mut spare.link_b, price_b.len());
    spare.proposer.propose(board, price_a, price_b, link_a);
    adopt_proposal(
        board,
        spare.proposer.proposal(),
        &mut spare.link_a,
        &mut spare.link_b,
        price_a,
        price_b,
        link_a,
        link_b,
    );
}

/// Whether no record of A has two edges: a search from each is short then.
fn have_one_each(edges: &[Edge]) -> bool {
    for k in 1..edges.len() {
        if edges[k - 1].a == edges[k].a {
            return false;
        }
    }
    true
}

/// Room for searches and for a proposal.
#[derive(Drop)]
pub(crate) struct SideRoom {
    pub(crate) tree: Tree,
    pub(crate) spare: Spare,
}

/// Room for searches over the edges; and for a proposal, unless no record of A has two edges.
pub(crate) fn room_for_side(
    alloc: Global,
    edges: &[Edge],
    rows_a: u32,
    rows_b: u32,
) -> Result<SideRoom, NoMemory>
    ensures { IfOk result (λ r. IsAtRest rows_a rows_b (length edges.now) r.tree.reached) }
{
    let (spare_a, spare_b) = if have_one_each(edges) {
        (0, 0)
    } else {
        (rows_a as usize, rows_b as usize)
    };
    let reached = Reached::new(alloc, rows_a, rows_b, edges.len())?;
    let tree = Tree {
        reached,
        best_free: None,
        looks: 0,
    };
    match Spare::new(alloc, spare_a, spare_b) {
        Ok(spare) => Ok(SideRoom { tree, spare }),
        Err(error) => {
            drop(tree);
            Err(error)
        }
    }
}

/// Links of the records of both sides.
#[derive(Drop)]
pub(crate) struct Links {
    pub(crate) a: Vec<MaybeEdge>,
    pub(crate) b: Vec<MaybeEdge>,
}

/// So many records of both sides without a link.
pub(crate) fn free_links(alloc: Global, rows_a: usize, rows_b: usize) -> Result<Links, NoMemory>
    ensures a { IfOk result (λ l. l.a.items ≡ replicate rows_a None) }
    ensures b { IfOk result (λ l. l.b.items ≡ replicate rows_b None) }
{
    let a = vec![in alloc; MaybeEdge::none(); rows_a]?;
    let b = vec![in alloc; MaybeEdge::none(); rows_b]?;
    Ok(Links { a, b })
}
