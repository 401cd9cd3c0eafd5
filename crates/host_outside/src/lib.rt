//! The outside of a run on the host: its files as a store, its streams as sinks, its memory,
//! and the words that it was called with.
#![tactic(auto)]

mod host_error;
mod host_file;
mod host_files;
mod host_memory;
mod host_stream;
mod loads;
mod locked_folders;
mod places;
mod rights;
mod words;

pub use host_file::{FileState, HostFile};
pub use host_files::HostFiles;
pub use host_memory::keep_memory;
pub use host_stream::HostStream;
pub use words::words_after_name;
