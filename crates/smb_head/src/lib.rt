//! What stands round every message: the header that begins it, and the frames that carry messages on a stream of bytes.
#![tactic(auto)]

pub mod command;
mod first;
mod frames;
mod head;
mod request;

pub use first::{FrameFault, MAX_FRAME, first_frame, frame_lacks, frame_start};
pub use frames::{Frames, Received, frames_of};
pub use head::{Head, HeadFault, Route, read_head, write_head};
pub use request::Request;
