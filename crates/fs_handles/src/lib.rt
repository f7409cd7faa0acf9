//! The opens that the server has given to a client, each of which has to be spent, and the numbers of descriptors.
#![tactic(auto)]

mod fds;
mod number;
mod open;
mod opens;

pub use fds::Fds;
pub use open::{KeptOpen, WireOpen};
pub use opens::Opens;
