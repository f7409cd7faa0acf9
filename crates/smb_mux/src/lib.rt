//! Requests in flight on a connection: frames of requests under the next ids, and the replies, interim replies and notices that come.
#![tactic(auto)]

mod bodies;
mod fault;
mod judge;
mod look;
mod mux;
mod send;
mod so_far;
mod taken;

pub use fault::{Malformed, SubmitFault, TakeFault};
pub use mux::{Mux, Ticket};
pub use send::frame_len;
pub use smb_head::Request;
pub use taken::{BreakNote, BreakNoteList, MidList, Reply, ReplyList, Taken};
