//! The outside of a run: a store of named texts, a sink of bytes, their forms in memory, and why a
//! command is refused, with its line.
#![tactic(auto)]

mod line;
mod memory_sink;
mod memory_store;
mod outside;
mod refusal;

pub use line::write_refusal;
pub use memory_sink::MemorySink;
pub use memory_store::{Failure, MemoryStore};
pub use outside::{Load, Sink, SinkError, Store, StoreCall, StoreError, entry_of_call};
pub use refusal::Refusal;
