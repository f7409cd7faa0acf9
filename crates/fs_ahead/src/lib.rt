//! The lines of a script, read one ahead of the calls.
#![tactic(auto)]

mod asked;
mod next;
mod script;

pub use asked::{Asked, Over, ScriptCall};
pub use script::Ahead;
