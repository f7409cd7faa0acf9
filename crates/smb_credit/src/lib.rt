//! The ids of the messages of a connection: which of them a client may use, and when (MS-SMB2 3.2.4.1.6 and 3.2.5.1.4).
#![tactic(auto)]

mod window;

pub use window::{NO_REQUEST, Window};
