//! The calls that a script makes, their answers and the options of a run, as plain types.
#![tactic(auto)]

mod answer;
mod call;
mod names;
mod options;

pub use answer::{Answer, Listing, StatOf};
pub use call::{Call, Fd};
pub use names::{Kind, NameList};
pub use options::Options;
