// The assigner and its answer.
ghost use Rattle.std.specs.Prelude.{◌≡◌, ◌<◌, ◌≤◌, length, All, AllPairs, IfOk, slice_index, pos, ◌≤ℤ◌};
ghost use Rattle.price_check.specs.Assignment.{IsBefore, IsWithin, IsGreatest, Certifies, greatest_value, price_of};
ghost use Rattle.price_check.specs.PartNumbers.{ArePartNumbers};
ghost use Rattle.assignment.specs.Solution.{HasSmallValue};

use crate::graph::{Graph, Sides, first_sides, graph_of, run_sides};
use crate::side::Side;
use assignment_steps::linked;
use link_base::{Candidate, NoMemory};
use link_limits::MOST_PAIRS;
use price_check::{PartNumbers, certified_is_greatest, part_numbers, prices_are_bounded};
use std::alloc::Global;
use std::marker::Model;

/// All that a solution needs, its memory included.
#[derive(Drop)]
pub struct Assigner {
    rows_a: u32,
    rows_b: u32,
    candidates: Vec<Candidate>,
    part_numbers: PartNumbers,
    graph: Graph,
    sides: Sides,
}

impl Model for Assigner {
    ghost use Rattle.assignment.specs.Solution.{Problem};

    ghost Value = { Problem };

    ghost use Rattle.assignment.specs.Sides.{IsPrepared};

    ghost view = { λ s. record { rows_a = s.rows_a; rows_b = s.rows_b; candidates = s.candidates.items; part_numbers = s.part_numbers.numbers.items; parts = s.part_numbers.parts } };

    ghost invariant = { λ s. IsPrepared s };
}

/// A greatest one-to-one list, with prices that show it.
#[derive(Drop)]
pub struct Assignment {
    links: Vec<Candidate>,
    price_a: Vec<u32>,
    price_b: Vec<u32>,
}

impl Model for Assignment {
    ghost use Rattle.assignment_steps.specs.Candidates.{prices_of};
    ghost use Rattle.assignment.specs.Sides.{AreBounded};
    ghost use Rattle.assignment.specs.Solution.{Solution};

    ghost Value = { Solution };

    ghost view = { λ s. record { links = s.links.items; prices_a = prices_of s.price_a.items; prices_b = prices_of s.price_b.items } };

    ghost invariant = { λ s. AreBounded s.links.items s.price_a.items × AreBounded s.links.items s.price_b.items };
}

impl Assigner {
    /// Takes all the memory that a solution needs, for at most [`MOST_PAIRS`] candidates that rise strictly
    /// by record of A, then of B, each of a value of at most `link_limits::MOST_VALUE`. Want of memory is
    /// the only error.
    pub fn new(
        alloc: Global,
        rows_a: u32,
        rows_b: u32,
        candidates: &[Candidate],
    ) -> Result<Assigner, NoMemory>
        requires count { length candidates.now ≤ MOST_PAIRS }
        requires rising { AllPairs IsBefore candidates.now }
        requires within { All (IsWithin rows_a rows_b) candidates.now }
        requires small { All HasSmallValue candidates.now }
        ensures rows_a { IfOk result (λ s. s.rows_a ≡ rows_a) }
        ensures rows_b { IfOk result (λ s. s.rows_b ≡ rows_b) }
        ensures candidates { IfOk result (λ s. s.candidates ≡ candidates.now) }
    {
        let part_numbers = part_numbers(alloc, rows_b, candidates)?;
        let graph = graph_of(alloc, rows_a, rows_b, candidates)?;
        let candidates = Vec::from_slice(alloc, candidates)?;
        let sides = first_sides(alloc, rows_a, rows_b, &graph)?;
        Ok(Assigner {
            rows_a,
            rows_b,
            candidates,
            part_numbers,
            graph,
            sides,
        })
    }

    /// How many parts the candidates have. Two candidates are of one part exactly where a chain of
    /// candidates leads from one to the other in which each shares a record with the next. Parts are
    /// numbered from 0 in the order of their first candidates.
    pub fn parts(&self) -> u32
        ensures { ArePartNumbers self.now.candidates self.now.part_numbers result }
    {
        self.part_numbers.parts
    }

    /// The number of the part of the candidate at an index.
    pub fn part_of(&self, candidate: u32) -> u32
        requires { candidate < length self.now.candidates }
        ensures number { result ≡ slice_index self.now.part_numbers candidate }
        ensures numbered { ArePartNumbers self.now.candidates self.now.part_numbers self.now.parts }
    {
        self.part_numbers.numbers[candidate as usize]
    }

    /// A greatest one-to-one list of the candidates, and prices that certify it.
    pub fn solve(self) -> Assignment
        ensures rows_a { length result.prices_a ≡ self.rows_a }
        ensures rows_b { length result.prices_b ≡ self.rows_b }
        ensures greatest { IsGreatest self.candidates result.links }
        ensures certified { Certifies self.candidates result.links result.prices_a result.prices_b }
    {
        certified_is_greatest();
        prices_are_bounded();
        let Assigner {
            rows_a: _,
            rows_b: _,
            candidates,
            part_numbers,
            graph,
            sides,
        } = self;
        drop(part_numbers);
        let Side {
            price_a,
            price_b,
            link_a,
            link_b,
            tree,
            spare,
        } = run_sides(&graph, sides);
        drop(link_b);
        drop(tree);
        drop(spare);
        let links = linked(candidates, &graph.edges, &link_a);
        drop(link_a);
        drop(graph);
        Assignment {
            links,
            price_a,
            price_b,
        }
    }
}

impl Assignment {
    /// The links, rising by their records.
    pub fn links(&self) -> &[Candidate]
        ensures { result.now ≡ self.now.links }
    {
        self.links.as_slice()
    }

    /// The dual price of a record of A, in the unit of the values: at least 0, and at most the greatest of 0
    /// and the links' values.
    pub fn price_a(&self, a: u32) -> i64
        requires { a < length self.now.prices_a }
        ensures price { result ≡ price_of self.now.prices_a a }
        ensures floor { pos 0 ≤ℤ result }
        ensures most { result ≤ℤ greatest_value self.now.links }
    {
        self.price_a[a as usize] as i64
    }

    /// The dual price of a record of B, in the unit of the values: at least 0, and at most the greatest of 0
    /// and the links' values.
    pub fn price_b(&self, b: u32) -> i64
        requires { b < length self.now.prices_b }
        ensures price { result ≡ price_of self.now.prices_b b }
        ensures floor { pos 0 ≤ℤ result }
        ensures most { result ≤ℤ greatest_value self.now.links }
    {
        self.price_b[b as usize] as i64
    }
}
