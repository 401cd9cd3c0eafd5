//! Blocking passes: the key of a row in a pass, and the rows of a file by their keys.
#![tactic(auto)]

mod coded_rows;
mod codes;
mod groups;
mod id_index;
mod ids;
mod index;
mod keys;
mod numbering;
mod part_ids;
mod pass_ids;

pub use groups::Groups;
pub use id_index::{IdIndex, build_index_in};
pub use ids::{IdKey, id_key, ids_tell_keys};
pub use index::{Index, PassRows, build_index};
pub use keys::{PassKey, part_text, pass_key};
pub use part_ids::{KeyedPool, key_ids};
pub use pass_ids::count_parts;
