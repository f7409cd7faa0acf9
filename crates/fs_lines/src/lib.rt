//! The lines of a source, in whatever pieces it gives its bytes.
#![tactic(auto)]

mod lines;
mod next;
mod search;

pub use lines::Lines;
pub use next::NextLine;
pub use search::{MAX_LINE, line_law};
