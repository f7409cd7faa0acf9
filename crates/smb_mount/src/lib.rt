//! The mount of a share in typed states: NEGOTIATE, SESSION_SETUP once or twice, TREE_CONNECT, and the two requests that end it
//! (MS-SMB2 3.2.4.2). Each state makes its request and is spent by the reply; a refused mount hands nothing back.
#![tactic(auto)]

mod facts;
mod fault;
mod replies;
mod requests;
mod states;

pub use facts::Facts;
pub use fault::MountFault;
pub use smb_head::Request;
pub use states::{Authenticated, Challenged, Mounted, Negotiated, New, SetUp};
