//! A proposal of links and prices of an assignment, found bit by bit of the values (scaling: Gabow and Tarjan
//! 1989) where rounds at the whole values are slow.
//!
//! Each function here is proved to be safe and to end, and no more: nothing is proved of how good a proposal
//! is. Its caller tests it before anything is taken over, so that a wrong one costs time and no link.
#![tactic(auto)]

mod back;
mod level;
mod levels;
mod lists;
mod numbers;
mod paths;
mod rounds;
mod search;
mod side;

pub use levels::Proposer;
