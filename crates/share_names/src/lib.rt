//! The names of the share: which units can be a name, where a path leads, and what gives names and takes them away: Rename, LinkTo and
//! SetPending.
#![tactic(auto)]

mod linking;
mod marking;
mod names;
mod place;
mod renaming;
mod target;
mod tree;

pub use linking::link_to;
pub use marking::set_pending;
pub use names::{are_names, components, same_name};
pub use place::{entry_named, place_of};
pub use renaming::rename;
pub use target::replaced_by;
pub use tree::{is_beneath, is_entry_beneath};
