//! The client as a state machine: inputs come, outputs are to be carried out, in their order. It has no connection and no clock of its
//! own, and says no word of a share.
#![tactic(auto)]

mod aside;
mod early;
mod fault;
mod flight;
mod go_on;
mod input;
mod land;
mod machine;
mod output;
mod path;
mod phase;
mod read;
mod request;
mod slot;
mod stat;
mod state;

pub use fault::{CoreFault, Protocol};
pub use input::Input;
pub use machine::Core;
pub use output::Output;
pub use read::{WireFault, read_reply};
