//! The bytes of files, their ends, their locks and their read-only marks: what the requests on them answer, and what the share holds
//! afterwards.
#![tactic(auto)]

mod locks;
mod marks;
mod ranges;
mod reads;
mod rooms;
mod writes;

pub use locks::{lock, unlock};
pub use marks::set_basic;
pub use reads::read;
pub use rooms::room;
pub use writes::{flush, set_end, write};
