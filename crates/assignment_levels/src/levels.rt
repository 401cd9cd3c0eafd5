// The levels, from few bits of the values to all.
ghost use Rattle.std.specs.Prelude.{◌≡◌};

use crate::level::{Level, cover, part_loose};
use crate::rounds::{Room, run_rounds, settle};
use crate::side::{Side, link};
use assignment_steps::{Board, MaybeEdge, Proposal, link_of};
use link_base::NoMemory;
use std::alloc::Global;
use std::marker::Model;

/// How many bits of the greatest value the first level has.
const FIRST_BITS: u32 = 3;

/// With more bits than these in the greatest value, a level adds two.
const FEW_BITS: u32 = 12;

/// Room for a proposal of prices and links.
#[derive(Drop)]
pub struct Proposer {
    own: Side,
    other: Side,
    room: Room,
}

impl Model for Proposer {
    ghost use Rattle.assignment_levels.specs.Proposed.{Proposed};

    ghost Value = { Proposed };

    ghost view = { λ s. record { price_a = s.own.price.items; price_b = s.other.price.items; mates = s.own.mate.items } };
}

/// Copies prices.
fn copy_prices(to: &mut [u32], prices: &[u32]) {
    for (kept, price) in to.iter_mut().zip(prices) {
        *kept = *price;
    }
}

/// How many of the records with edges, which begin at these places, may still wait at a level: none at the last.
fn most_left(starts: &[u32], shift: u32) -> u32 {
    if shift == 0 {
        return 0;
    }
    let ends = starts.iter().skip(1);
    let with_edges = starts.iter().zip(ends).filter(|(start, end)| start < end);
    u32::try_from(with_edges.count() / 32).unwrap_or(u32::MAX)
}

impl Proposer {
    /// Room for so many records.
    pub fn new(alloc: Global, rows_a: usize, rows_b: usize) -> Result<Proposer, NoMemory> {
        let own = Side::new(alloc, rows_a)?;
        let other = Side::new(alloc, rows_b)?;
        let room = Room::new(alloc, own.records.max(other.records))?;
        Ok(Proposer { own, other, room })
    }

    /// Puts the records there, without prices and links.
    fn clear(&mut self) {
        self.own.clear();
        self.other.clear();
        self.room.fill(self.own.records.max(self.other.records));
    }

    /// Settles the records of one side and then those of the other, where at a level with bits left out a few of
    /// each may still wait.
    fn settle(&mut self, level: Level<'_>) {
        let Proposer { own, other, room } = self;
        let board = level.board;
        let turned = Level {
            board: Board {
                edges: board.turned,
                starts: board.turned_starts,
                turned: board.edges,
                turned_starts: board.starts,
            },
            shift: level.shift,
        };
        cover(level, own, other);
        cover(turned, other, own);
        part_loose(level, own, other);
        let most = most_left(board.starts, level.shift);
        settle(level, own, other, room, most);
        let most = most_left(board.turned_starts, level.shift);
        settle(turned, other, own, room, most);
    }

    /// Proposes prices and links bit by bit of the values, from nothing.
    pub fn propose_by_levels(&mut self, board: Board<'_>) {
        self.clear();
        let greatest = board.edges.iter().map(|edge| edge.value).max();
        let bits = 32u32.saturating_sub(greatest.unwrap_or(0).leading_zeros());
        let step = if bits > FEW_BITS { 2 } else { 1 };
        let mut shift = bits.saturating_sub(FIRST_BITS);
        for _ in 0..32 {
            self.settle(Level { board, shift });
            if shift == 0 {
                return;
            }
            let next = shift.saturating_sub(step);
            let prices = self.other.price.iter_mut();
            prices.for_each(|price| *price = price.wrapping_shl(shift.saturating_sub(next)));
            shift = next;
        }
    }

    /// Proposes prices and links, from those that are given on: first by rounds at the whole values, and where
    /// three of these are slow, bit by bit. What it gives is a proposal: nothing is proved of how good it is.
    pub fn propose(
        &mut self,
        board: Board<'_>,
        price_a: &[u32],
        price_b: &[u32],
        links: &[MaybeEdge],
    ) {
        if self.own.records as usize != price_a.len()
            || self.other.records as usize != price_b.len()
        {
            return;
        }
        self.clear();
        let Proposer { own, other, room } = self;
        copy_prices(&mut own.price, price_a);
        copy_prices(&mut other.price, price_b);
        for position in 0..links.len() {
            let k = link_of(links, position).unwrap_or(board.edges.len());
            if k < board.edges.len() {
                let edge = board.edges[k];
                link(own, other, edge.a, edge.b);
            }
        }
        if !run_rounds(Level { board, shift: 0 }, own, other, room, 0, false) {
            self.propose_by_levels(board);
        }
    }

    /// The proposal: prices, and beside each record of A the number of the record of B that it is linked to.
    pub fn proposal(&self) -> Proposal<'_>
        ensures price_a { result.price_a.now ≡ self.now.price_a }
        ensures price_b { result.price_b.now ≡ self.now.price_b }
        ensures mates { result.mates.now ≡ self.now.mates }
    {
        Proposal {
            price_a: &self.own.price,
            price_b: &self.other.price,
            mates: &self.own.mate,
        }
    }
}
