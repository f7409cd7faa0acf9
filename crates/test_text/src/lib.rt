//! The text of the programs that run tests: the lines that are printed of a vector, and whether a row came out.
#![tactic(auto)]

mod page;
mod same;

pub use page::{Item, Page, body_fault, header};
pub use same::is_same;
