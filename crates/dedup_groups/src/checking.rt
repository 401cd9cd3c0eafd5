// The check of a forest.
ghost use Rattle.std.specs.Prelude.{◌↔◌, ◌<◌, ◌≤◌, ℕ, All, Contains, IfOk, IfSome, IsTrue, length};
ghost use Rattle.dedup_groups.specs.Groups.{group_lists, HasOneLeader, HaveRows, IsForest, IsLinkWithin, IsRooted};
ghost use Rattle.dedup_groups.specs.Forest.{IsNear};
ghost use Rattle.link_base.specs.declared.rule.PairAt.{PairAt as Pair};
ghost use Rattle.link_limits.specs.declared.TheConstants.{MOST_PAIRS, MOST_ROWS};

use crate::neighbours::neighbours;
use block_passes::Groups as Rows;
use link_base::{NoMemory, PairAt};
use std::alloc::Global;

// Whether the two ends of each link have one leader.
fn have_one_leader(links: &[PairAt], leader: &[u32]) -> bool
    requires { All (λ (link : Pair). (link.a < length leader.now) × (link.b < length leader.now)) links.now }
    ensures { IsTrue result ↔ All (HasOneLeader leader.now) links.now }
{
    for link in links {
        if leader[link.a as usize] != leader[link.b as usize] {
            return false;
        }
    }
    true
}

// Whether a position is rooted, where these are the records that it is linked with.
fn is_rooted(near: &[u32], leader: &[u32], via: &[Option<u32>], depth: &[u32], at: usize) -> bool
    requires rows { HaveRows (length leader.now) (group_lists leader.now via.now depth.now) }
    requires vias { All (λ from. IfSome from (λ x. x < length leader.now)) via.now }
    requires at { at < length leader.now }
    ensures { IsTrue result ↔ IsRooted (λ x from. Contains near.now from) (group_lists leader.now via.now depth.now) at }
{
    if leader[at] as usize > at {
        return false;
    }
    let Some(from) = via[at] else {
        return depth[at] == 0 && leader[at] as usize == at;
    };
    if depth[at] == 0 {
        return false;
    }
    if depth[from as usize] != depth[at] - 1 {
        return false;
    }
    if leader[from as usize] != leader[at] {
        return false;
    }
    near.contains(&from)
}

// Whether each of so many positions is rooted.
fn are_rooted(near: &Rows, rows: u32, leader: &[u32], via: &[Option<u32>], depth: &[u32]) -> bool
    requires rows { HaveRows rows (group_lists leader.now via.now depth.now) }
    requires vias { All (λ from. IfSome from (λ x. x < rows)) via.now }
    ensures { IsTrue result ↔ ((x : ℕ) → x < rows → IsRooted (IsNear near.now) (group_lists leader.now via.now depth.now) x) }
{
    for at in 0..rows {
        if !is_rooted(near.rows(at), leader, via, depth, at as usize) {
            return false;
        }
    }
    true
}

/// Whether three lists, an entry for each record, are a forest for links: the two ends of each link have equal leaders, and each
/// position is its own leader at depth 0, or it was reached from a less deep position of its group that it is linked with. Takes
/// time in proportion to the records and the links.
pub fn check_groups(
    alloc: Global,
    rows: u32,
    links: &[PairAt],
    leader: &[u32],
    via: &[Option<u32>],
    depth: &[u32],
) -> Result<bool, NoMemory>
    requires few_rows { rows ≤ MOST_ROWS }
    requires few_links { length links.now ≤ MOST_PAIRS }
    requires within { All (IsLinkWithin rows) links.now }
    requires rows { HaveRows rows (group_lists leader.now via.now depth.now) }
    requires vias { All (λ from. IfSome from (λ x. x < rows)) via.now }
    ensures { IfOk result (λ yes. IsTrue yes ↔ IsForest rows links.now (group_lists leader.now via.now depth.now)) }
{
    if !have_one_leader(links, leader) {
        return Ok(false);
    }
    let near = neighbours(alloc, rows, links)?;
    Ok(are_rooted(&near, rows, leader, via, depth))
}
