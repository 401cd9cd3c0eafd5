// What a search has reached from its root.
ghost use Rattle.std.specs.Prelude.{◌≡◌, ◌+◌, ◌-◌, ◌<◌, ◌≤◌, ℕ, length, vec_len, Contains, IfOk, MatchOption};
ghost use Rattle.link_limits.specs.declared.TheConstants.{MOST_VALUE};
ghost use Rattle.assignment_steps.specs.Market.{edge, number, distance, far};
ghost use Rattle.assignment_steps.specs.Reached.{HasRoomForRecords, IsAtRest, IsClean};
ghost use Rattle.assignment_steps.specs.Spread.{IsNearer, IsRelaxed, IsSearchable, JoinsReached, Notes, Reaches, Shifts, edge_of, paid, spread};

use crate::market::{Field, Grown};
use crate::queue::{DistanceQueue, FARTHEST};
use crate::shift::{lower, raise};
use link_base::NoMemory;
use std::alloc::Global;

/// What a search has reached from its root. `dist_a` and `dist_b` are the distances of the records, `rank` says when a
/// record of A joined and `from` by which edge a record of B was reached. `records` and `touched` are the records of A
/// and of B that have a distance, in the order of their coming, `frontier` the records of B whose turn is still to come,
/// and `current` is the distance of the newest. The nearest end so far is at the distance `best`: at `best_record`, the
/// nearest record of A at which the search may end by giving its link up, or at a record of B, as the caller says.
#[derive(Drop)]
pub struct Reached {
    pub dist_a: Vec<u32>,
    pub rank: Vec<u32>,
    pub dist_b: Vec<u32>,
    pub from: Vec<u32>,
    pub records: Vec<u32>,
    pub touched: Vec<u32>,
    pub frontier: DistanceQueue,
    pub current: u32,
    pub best: u32,
    pub best_record: usize,
}

/// How far a record of B is over the edge `k`, by the distance of its record of A and what the prices leave.
fn reach_over(field: Field<'_>, dist_a: &[u32], k: usize) -> u32
    requires place { k < length field.edges.now }
    requires ready { IsSearchable field }
    requires records { length dist_a.now ≡ length field.price_a.now }
    requires near { distance dist_a.now (edge_of field k).a ≤ MOST_VALUE }
    ensures { result + (edge_of field.entry k).value ≡ distance dist_a.now (edge_of field.entry k).a + paid field.entry k }
{
    let edge = field.edges[k];
    let a = edge.a as usize;
    dist_a[a] + (field.price_a[a] + field.price_b[edge.b as usize] - edge.value)
}

impl Reached {
    /// Nothing is reached; there is room for all records, and for so many entries in the queue.
    pub fn new(alloc: Global, rows_a: u32, rows_b: u32, entries: usize) -> Result<Reached, NoMemory>
        ensures rest { IfOk result (IsAtRest rows_a rows_b entries) }
        ensures current { IfOk result (λ r. r.current ≡ 0) }
    {
        let dist_a = vec![in alloc; FARTHEST; rows_a as usize]?;
        let rank = vec![in alloc; 0u32; rows_a as usize]?;
        let records = Vec::with_capacity(alloc, rows_a as usize)?;
        let dist_b = vec![in alloc; FARTHEST; rows_b as usize]?;
        let from = vec![in alloc; 0u32; rows_b as usize]?;
        let touched = Vec::with_capacity(alloc, rows_b as usize)?;
        let frontier = DistanceQueue::new(alloc, entries)?;
        Ok(Reached {
            dist_a,
            rank,
            dist_b,
            from,
            records,
            touched,
            frontier,
            current: 0,
            best: 0,
            best_record: 0,
        })
    }

    /// How far a record of B is over the edge `k`, where that is nearer than it was reached and than the nearest end.
    pub fn nearer_over(&self, field: Field<'_>, k: usize) -> Option<u32>
        requires place { k < length field.edges.now }
        requires ready { IsSearchable field }
        requires room { HasRoomForRecords (length field.price_a.now) (length field.price_b.now) self.now }
        requires near { distance self.now.dist_a.items (edge_of field k).a ≤ MOST_VALUE }
        ensures { MatchOption result (IsRelaxed field.entry (spread self.now) k) (IsNearer field.entry (spread self.now) k) }
    {
        let far = reach_over(field, &self.dist_a, k);
        if self.best <= far {
            return None;
        }
        if self.dist_b[field.edges[k].b as usize] <= far {
            return None;
        }
        Some(far)
    }

    /// A record of A that was not reached joins at a distance, which is the newest. Says whether it is a nearer end than
    /// each before, by its price, which then is the nearest.
    pub fn join(&mut self, position: usize, dist: u32, price: u32) -> bool
        requires within { position < vec_len self.old.dist_a }
        requires near { dist ≤ MOST_VALUE }
        requires price { price ≤ MOST_VALUE }
        requires new { distance self.old.dist_a.items position ≡ far }
        requires room { HasRoomForRecords (vec_len self.old.dist_a) (vec_len self.old.dist_b) self.old }
        ensures { JoinsReached self.old self.new position dist price result }
    {
        self.dist_a[position] = dist;
        self.rank[position] = self.records.len() as u32;
        self.records.push_reserved(position as u32);
        self.current = dist;
        let end = dist + price;
        if self.best <= end {
            return false;
        }
        self.best = end;
        self.best_record = position;
        true
    }

    /// The nearest end, which is at the record of B `free`, if at one.
    pub fn nearest_end(&self, free: Option<usize>) -> Grown
        ensures { result ≡ record { end = self.now.best; free = free; last = self.now.best_record } }
    {
        Grown {
            end: self.best,
            free,
            last: self.best_record,
        }
    }

    // Notes a record of B, where it is reached for the first time.
    fn note_first(&mut self, b: usize)
        requires within { b < vec_len self.old.dist_b }
        requires room { HasRoomForRecords (vec_len self.old.dist_a) (vec_len self.old.dist_b) self.old }
        ensures { Notes self.old self.new b }
    {
        if self.dist_b[b] != FARTHEST {
            return;
        }
        self.touched.push_reserved(b as u32);
    }

    /// Puts a record of B at a shorter distance by the edge `k`, and into the queue; `first` asks that its turn come before
    /// others at that distance.
    pub fn reach(&mut self, b: usize, k: u32, dist: u32, first: bool)
        requires within { b < vec_len self.old.dist_b }
        requires near { dist < distance self.old.dist_b.items b }
        requires queue { self.old.frontier.count < self.old.frontier.room }
        requires room { HasRoomForRecords (vec_len self.old.dist_a) (vec_len self.old.dist_b) self.old }
        ensures { Reaches self.old self.new b k dist first }
    {
        self.note_first(b);
        self.dist_b[b] = dist;
        self.from[b] = k;
        self.frontier.put(dist, first, b);
    }

    /// Changes the prices by what the distances lack to `end`, and leaves nothing reached. The edges by which records of B
    /// were reached and when records of A joined can still be read.
    pub fn shift(&mut self, price_a: &mut [u32], price_b: &mut [u32], end: u32)
        requires room { HasRoomForRecords (length price_a.old) (length price_b.old) self.old }
        requires end { end ≤ far }
        requires noted_a { (a : ℕ) → distance self.old.dist_a.items a < far → Contains self.old.records.items a }
        requires noted_b { (b : ℕ) → distance self.old.dist_b.items b < far → Contains self.old.touched.items b }
        requires falls { (a : ℕ) → end - distance self.old.dist_a.items a ≤ number price_a.old a }
        requires small { (b : ℕ) → number price_b.old b ≤ MOST_VALUE }
        ensures shifts { Shifts price_a.old price_b.old price_a.new price_b.new end self.old self.new }
        ensures clean { IsClean (length price_a.old) (length price_b.old) self.new }
    {
        lower(price_a, &mut self.dist_a, &self.records, end);
        raise(price_b, &mut self.dist_b, &self.touched, end);
        self.records.clear();
        self.touched.clear();
        self.frontier.clear();
    }
}
