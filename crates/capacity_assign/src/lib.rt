//! The greatest list of candidates in which a record of B may be linked as often as its capacity, with
//! dual prices that certify it (the transportation problem: Hitchcock 1941; the primal-dual method of Kuhn
//! 1955, shortest augmenting paths of Edmonds and Karp 1972).
#![tactic(auto)]

mod alike;
mod assigner;
mod grow;
mod market;
mod round;
mod seats;
mod start;

pub use assigner::{CapacityAssigner, CapacityAssignment};
