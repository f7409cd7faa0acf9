//! The names of a directory, as many as fit at a time.
#![tactic(auto)]

mod fitting;
mod index;
mod order;
mod reply;
mod snapshot;

pub use reply::list;
