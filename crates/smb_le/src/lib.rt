//! Little-endian fields and flag sets.
#![tactic(auto)]

mod fields;
mod flags;

pub use fields::{get_u16, get_u32, get_u64, put_u16, put_u32, put_u64};
pub use flags::{HeadFlags, ServerCaps};
