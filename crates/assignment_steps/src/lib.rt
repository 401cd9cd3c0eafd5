//! Records by distance, the nearest first, in memory that is taken beforehand.
//!
//! Candidates as edges, from both sides, what a search over them has reached from its root, and prices that are changed
//! by distances.
//!
//! Steps between prices and links of an assignment: between any two of them prices cover every candidate,
//! links are tight, and a record of B without a link has no price (primal-dual method: Kuhn 1955).
//!
//! What is proposed is found without proof and taken over by a call that is proved. So a wrong proposal costs
//! time and never a wrong link.
#![tactic(auto)]

mod adopt;
mod candidates;
mod left;
mod market;
mod maybe_edge;
mod other_links;
mod queue;
mod reaching;
mod shift;
mod starts;
mod tight;
mod turned;

pub use adopt::{adopt_all, adopt_proposal};
pub use candidates::{edges_of, linked};
pub use left::waiting;
pub use market::{Board, Edge, Field, Grown, Net, Proposal, Ways};
pub use maybe_edge::{MaybeEdge, has_link, link_of};
pub use other_links::join_as_turned;
pub use queue::{DistanceQueue, FARTHEST, Near};
pub use reaching::Reached;
pub use shift::{first_prices, raise_to};
pub use starts::starts_of;
pub use tight::link_tight;
pub use turned::turned_edges;
