//! The names of things that every layer speaks of: file ids, message ids, lease keys, statuses and error numbers, and the
//! small types that hold text, bytes and numbers and that contracts see as lists.
#![tactic(auto)]

mod errno;
mod lists;
mod names;
mod text;

pub use errno::errno_of;
pub use lists::{Bytes, TextList, U64List, Units};
pub use names::{Errno, Fid, Key, Mid, NoMemory, Status};
pub use text::Text;
