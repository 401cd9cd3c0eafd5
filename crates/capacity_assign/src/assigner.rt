// The assigner and its answer.
ghost use Rattle.std.specs.Prelude.{◌≡◌, ◌<◌, ◌≤◌, ◌^◌, length, All, AllPairs, IfOk, pos, ◌≤ℤ◌};
ghost use Rattle.price_check.specs.Assignment.{IsBefore, IsWithin, price_of, CertifiesWithin, IsGreatestWithin};
ghost use Rattle.capacity_assign.specs.Solution.{HasSmallValue, IsAllowedCapacity};
ghost use Rattle.assignment_steps.specs.Market.{AreListed};
ghost use Rattle.capacity_assign.specs.Seating.{AreAlike, seating};
ghost use Rattle.assignment_steps.specs.Reached.{IsAtRest};
ghost use Rattle.capacity_assign.specs.Round.{Advances, IsBetweenRounds};
ghost use Rattle.link_limits.specs.declared.TheConstants.{MOST_VALUE};

use crate::alike::like_of;
use crate::market::{Seats, Tree};
use crate::round::all_rounds;
use crate::start::{listed_edges, start_of};
use assignment_steps::{Edge, MaybeEdge, linked};
use link_base::{Candidate, NoMemory};
use link_limits::MOST_PAIRS;
use price_check::certified_within_is_greatest;
use std::alloc::Global;
use std::marker::Model;

/// All that a solution needs, its memory included.
#[derive(Drop)]
pub struct CapacityAssigner {
    rows_a: u32,
    capacity: Vec<u32>,
    candidates: Vec<Candidate>,
    edges: Vec<Edge>,
    starts: Vec<u32>,
    like: Vec<usize>,
    price_a: Vec<u32>,
    price_b: Vec<u32>,
    link_a: Vec<MaybeEdge>,
    seats: Seats,
    tree: Tree,
}

impl Model for CapacityAssigner {
    ghost use Rattle.capacity_assign.specs.Solution.{Problem};

    ghost Value = { Problem };

    ghost use Rattle.capacity_assign.specs.Prepared.{IsPrepared};

    ghost view = { λ s. record { rows_a = s.rows_a; capacities = s.capacity.items; candidates = s.candidates.items } };

    ghost invariant = { λ s. IsPrepared s };
}

/// A greatest list within capacities, with prices that show it.
#[derive(Drop)]
pub struct CapacityAssignment {
    links: Vec<Candidate>,
    price_a: Vec<u32>,
    price_b: Vec<u32>,
}

impl Model for CapacityAssignment {
    ghost use Rattle.assignment_steps.specs.Candidates.{prices_of};
    ghost use Rattle.capacity_assign.specs.Prepared.{AreSmallPrices};
    ghost use Rattle.capacity_assign.specs.Solution.{Solution};

    ghost Value = { Solution };

    ghost view = { λ s. record { links = s.links.items; prices_a = prices_of s.price_a.items; prices_b = prices_of s.price_b.items } };

    ghost invariant = { λ s. AreSmallPrices s.price_a.items × AreSmallPrices s.price_b.items };
}

/// Takes every record of A up in turn.
fn run(
    edges: &Vec<Edge>,
    starts: &Vec<u32>,
    price_a: &mut Vec<u32>,
    price_b: &mut Vec<u32>,
    link_a: &mut Vec<MaybeEdge>,
    seats: &mut Seats,
    like: &Vec<usize>,
    tree: &mut Tree,
)
    requires listed { AreListed edges.now.items (length price_a.old.items) starts.now.items }
    requires between { IsBetweenRounds edges.now.items price_a.old.items price_b.old.items link_a.old.items (seating seats.old) 0 }
    requires alike { AreAlike edges.now.items (length price_a.old.items) like.now.items }
    requires tree { IsAtRest (length price_a.old.items) (length price_b.old.items) (length edges.now.items) tree.old.reached }
    ensures advances { Advances edges.now.items link_a.old.items seats.old.left.items price_a.new.items price_b.new.items link_a.new.items (seating seats.new) (length price_a.new.items) }
    ensures rows { (length price_a.new.items ≡ length price_a.old.items) × (length price_b.new.items ≡ length price_b.old.items) }
{
    all_rounds(edges, starts, price_a, price_b, link_a, seats, like, tree);
}

impl CapacityAssigner {
    /// Takes all the memory that a solution needs, for a record of B for each capacity, none above
    /// `link_limits::MOST_CAPACITY`, and at most [`MOST_PAIRS`] candidates that rise strictly by record of A,
    /// then of B, each of a value of at most `link_limits::MOST_VALUE`. Want of memory is the only error.
    pub fn new(
        alloc: Global,
        rows_a: u32,
        capacity: &[u32],
        candidates: &[Candidate],
    ) -> Result<CapacityAssigner, NoMemory>
        requires rows_b { length capacity.now < 2 ^ 32 }
        requires allowed_capacities { All IsAllowedCapacity capacity.now }
        requires count { length candidates.now ≤ MOST_PAIRS }
        requires rising { AllPairs IsBefore candidates.now }
        requires within { All (IsWithin rows_a (length capacity.now)) candidates.now }
        requires small { All HasSmallValue candidates.now }
        ensures rows_a { IfOk result (λ s. s.rows_a ≡ rows_a) }
        ensures capacities { IfOk result (λ s. s.capacities ≡ capacity.now) }
        ensures candidates { IfOk result (λ s. s.candidates ≡ candidates.now) }
    {
        let listed = listed_edges(alloc, rows_a as usize, candidates)?;
        // Before the rest is taken, since it gives back what it notes records in.
        let like = like_of(alloc, &listed.edges, &listed.starts, rows_a as usize)?;
        let capacities = Vec::from_slice(alloc, capacity)?;
        let kept = Vec::from_slice(alloc, candidates)?;
        let start = start_of(alloc, &listed.edges, rows_a as usize, capacity)?;
        Ok(CapacityAssigner {
            rows_a,
            capacity: capacities,
            candidates: kept,
            edges: listed.edges,
            starts: listed.starts,
            like,
            price_a: start.price_a,
            price_b: start.price_b,
            link_a: start.link_a,
            seats: start.seats,
            tree: start.tree,
        })
    }

    /// A greatest list of the candidates within the capacities, and prices that certify it.
    pub fn solve(self) -> CapacityAssignment
        ensures rows_a { length result.prices_a ≡ self.rows_a }
        ensures rows_b { length result.prices_b ≡ length self.capacities }
        ensures greatest { IsGreatestWithin self.candidates self.capacities result.links }
        ensures certified { CertifiesWithin self.candidates self.capacities result.links result.prices_a result.prices_b }
    {
        certified_within_is_greatest();
        let CapacityAssigner {
            rows_a: _,
            capacity: _,
            candidates,
            edges,
            starts,
            like,
            mut price_a,
            mut price_b,
            mut link_a,
            mut seats,
            mut tree,
        } = self;
        run(
            &edges,
            &starts,
            &mut price_a,
            &mut price_b,
            &mut link_a,
            &mut seats,
            &like,
            &mut tree,
        );
        drop(seats);
        drop(tree);
        let links = linked(candidates, &edges, &link_a);
        CapacityAssignment {
            links,
            price_a,
            price_b,
        }
    }
}

impl CapacityAssignment {
    /// The links, rising by their records.
    pub fn links(&self) -> &[Candidate]
        ensures { result.now ≡ self.now.links }
    {
        self.links.as_slice()
    }

    /// The dual price of a record of A, in the unit of the values: at least 0, and at most
    /// `link_limits::MOST_VALUE`.
    pub fn price_a(&self, a: u32) -> i64
        requires { a < length self.now.prices_a }
        ensures price { result ≡ price_of self.now.prices_a a }
        ensures floor { pos 0 ≤ℤ result }
        ensures most { result ≤ℤ pos MOST_VALUE }
    {
        self.price_a[a as usize] as i64
    }

    /// The dual price of a place at a record of B, in the unit of the values: at least 0, and at most
    /// `link_limits::MOST_VALUE`.
    pub fn price_b(&self, b: u32) -> i64
        requires { b < length self.now.prices_b }
        ensures price { result ≡ price_of self.now.prices_b b }
        ensures floor { pos 0 ≤ℤ result }
        ensures most { result ≤ℤ pos MOST_VALUE }
    {
        self.price_b[b as usize] as i64
    }
}
