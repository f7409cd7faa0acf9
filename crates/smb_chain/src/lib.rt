//! Compound messages: several messages in one frame, each with the place of the next.
#![tactic(auto)]

mod builder;
mod parts;

pub use builder::{ChainBuilder, Message};
pub use parts::{BadNext, Parts, first_part, split};
