// The search in breadth for the groups.
ghost use Rattle.std.specs.Prelude.{◌≡◌, ◌+◌, ◌<◌, ◌≤◌, ◌^◌, ◌++◌, ◌∷◌, [], All, IfOk, OnOk, length};
ghost use Rattle.dedup_groups.specs.Groups.{AreLeaders, depth_of, HaveRows, IsForest, IsLinkWithin, leader_of};
ghost use Rattle.dedup_groups.specs.Forest.{AreFound, AreNeighbours, AreAlone, IsSearch, reached_lists, waiting_room, lists_of};
ghost use Rattle.link_limits.specs.declared.TheConstants.{MOST_PAIRS, MOST_ROWS};

use crate::forest::Groups;
use crate::neighbours::neighbours;
use block_passes::Groups as Rows;
use link_base::{NoMemory, PairAt};
use std::alloc::Global;

// What a search has reached: for each record its leader, the record that it was reached from and how deep it is, and in the queue
// those that were reached from this leader, in order. A record that stands alone is its own leader at depth 0.
#[derive(Drop)]
struct Trees {
    leaders: Vec<u32>,
    vias: Vec<Option<u32>>,
    depths: Vec<u32>,
    queue: Vec<u32>,
}

// So many records, each alone.
fn single_trees(alloc: Global, rows: u32) -> Result<Trees, NoMemory>
    ensures { IfOk result (λ trees. AreAlone rows (lists_of trees)) }
{
    let mut leaders = vec![in alloc; 0u32; rows as usize]?;
    for at in 0..rows {
        leaders[at as usize] = at;
    }
    Ok(Trees {
        leaders,
        vias: vec![in alloc; None; rows as usize]?,
        depths: vec![in alloc; 0u32; rows as usize]?,
        queue: Vec::new(alloc),
    })
}

// Reaches a record from another one of a leader.
fn reach(trees: &mut Trees, at: u32, from: u32, leader: u32) -> Result<(), NoMemory>
    requires rows { HaveRows (length trees.old.leaders.items) (lists_of trees.old) }
    requires at { at < length trees.old.leaders.items }
    requires from { from < length trees.old.leaders.items }
    requires depth { depth_of (lists_of trees.old) from + 1 < 2 ^ 32 }
    ensures lists { OnOk result (lists_of trees.new ≡ reached_lists (lists_of trees.old) at from leader) }
    ensures queue { OnOk result (trees.new.queue.items ≡ trees.old.queue.items ++ at ∷ []) }
{
    trees.queue.push(at)?;
    let depth = trees.depths[from as usize] + 1;
    trees.leaders[at as usize] = leader;
    trees.vias[at as usize] = Some(from);
    trees.depths[at as usize] = depth;
    Ok(())
}

// Reaches the neighbours of the next record in the queue that were not reached before.
fn visit_all(trees: &mut Trees, near: &Rows, done: usize, leader: u32) -> Result<(), NoMemory>
    requires neighbours { AreNeighbours near.now }
    requires search { IsSearch near.now (lists_of trees.old) trees.old.queue.items done leader }
    requires done { done < length trees.old.queue.items }
    requires room { waiting_room (lists_of trees.old) trees.old.queue.items leader < 2 ^ 32 }
    ensures search { OnOk result (IsSearch near.now (lists_of trees.new) trees.new.queue.items (done + 1) leader) }
    ensures done { OnOk result (done < length trees.new.queue.items) }
    ensures room { OnOk result (waiting_room (lists_of trees.new) trees.new.queue.items leader ≡ waiting_room (lists_of trees.old) trees.old.queue.items leader) }
{
    let from = trees.queue[done];
    let heads = near.rows(from);
    for at in heads {
        if trees.leaders[*at as usize] > leader {
            reach(trees, *at, from, leader)?;
        }
    }
    Ok(())
}

// Reaches all records of the group of a leader, from the nearest on.
fn search_from(trees: &mut Trees, near: &Rows, leader: u32) -> Result<(), NoMemory>
    requires neighbours { AreNeighbours near.now }
    requires few { length near.now ≤ MOST_ROWS }
    requires found { AreFound near.now (lists_of trees.old) leader }
    requires within { leader < length near.now }
    requires alone { leader_of (lists_of trees.old) leader ≡ leader }
    ensures { OnOk result (AreFound near.now (lists_of trees.new) (leader + 1)) }
{
    trees.queue.clear();
    trees.queue.push(leader)?;
    let mut done = 0;
    'search: while done < trees.queue.len() {
        visit_all(trees, near, done, leader)?;
        done += 1;
    }
    Ok(())
}

// What the searches from all leaders in turn reach.
fn trees_of(alloc: Global, near: &Rows, rows: u32) -> Result<Trees, NoMemory>
    requires neighbours { AreNeighbours near.now }
    requires rows { length near.now ≡ rows }
    requires few { rows ≤ MOST_ROWS }
    ensures { IfOk result (λ trees. AreFound near.now (lists_of trees) rows) }
{
    let mut trees = single_trees(alloc, rows)?;
    for leader in 0..rows {
        if trees.leaders[leader as usize] == leader {
            search_from(&mut trees, near, leader)?;
        }
    }
    Ok(trees)
}

/// The groups of so many records that chains of links join, as a forest: a search in breadth from the least position of each group
/// (Moore 1959). Takes time in proportion to the records and the links.
pub fn groups(alloc: Global, rows: u32, links: &[PairAt]) -> Result<Groups, NoMemory>
    requires few_rows { rows ≤ MOST_ROWS }
    requires few_links { length links.now ≤ MOST_PAIRS }
    requires within { All (IsLinkWithin rows) links.now }
    ensures forest { IfOk result (IsForest rows links.now) }
    ensures leaders { IfOk result (λ groups. AreLeaders rows links.now groups.leaders) }
{
    let near = neighbours(alloc, rows, links)?;
    let trees = trees_of(alloc, &near, rows)?;
    let Trees {
        leaders,
        vias,
        depths,
        queue,
    } = trees;
    drop(queue);
    Ok(Groups {
        leaders,
        vias,
        depths,
    })
}
