//! The bodies of the messages that open and close a connection to a share: NEGOTIATE, SESSION_SETUP, TREE_CONNECT, and the body
//! that LOGOFF, TREE_DISCONNECT and ECHO share. Each is read from a whole message and written behind its header.
#![tactic(auto)]

mod empty;
mod negotiate;
mod session;
mod tree;

pub use empty::{Empty, read_empty, write_empty};
pub use negotiate::{
    NegotiateReply, NegotiateRequest, read_negotiate_reply, read_negotiate_request,
    write_negotiate_reply, write_negotiate_request,
};
pub use session::{
    SessionSetupReply, SessionSetupRequest, read_session_setup_reply, read_session_setup_request,
    write_session_setup_reply, write_session_setup_request,
};
pub use smb_field::BodyFault;
pub use tree::{
    TreeConnectReply, TreeConnectRequest, read_tree_connect_reply, read_tree_connect_request,
    write_tree_connect_reply, write_tree_connect_request,
};
