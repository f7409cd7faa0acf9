//! A link in memory with the share machine behind it: a server for tests, which takes its turns from a list.
#![tactic(auto)]

mod answers;
mod bodies;
mod box_link;
mod delay;
mod order;
mod requests;
mod schedule;
mod sending;
mod serving;
mod state;
mod turns;
mod waiting;

pub use box_link::BoxLink;
pub use schedule::{Schedule, Turn, TurnList};
