//! What all bodies of SMB2 messages share: the table of a body's fields, what stands in a message by it, and its one spelling.
#![tactic(auto)]

mod field;
mod read;
mod write;

pub use field::{BodyFault, Field, Places};
pub use read::lent;
pub use write::{put_parts, put_structure, put_varied};
