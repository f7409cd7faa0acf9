//! Names of files between UTF-8 and the UTF-16 of the wire, with the map of the characters that a name may not have there, and
//! paths between their text and their components.
#![tactic(auto)]

mod characters;
mod fault;
mod map;
mod name;
mod path;

pub use fault::NameFault;
pub use map::NameMap;
pub use name::{from_wire, never_share_a_wire_name, to_wire};
pub use path::{split_path, wire_path};
