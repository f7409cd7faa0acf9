//! The bodies of LOCK, QUERY_DIRECTORY, QUERY_INFO, SET_INFO, of lease breaks, and of the reply of a request that the server
//! refused. Each is read from a whole message and written behind its header.
#![tactic(auto)]

mod directory;
mod error;
mod info;
mod lease;
mod lock;

pub use directory::{
    BufferReply, QueryDirectoryRequest, read_buffer_reply, read_query_directory_request,
    write_buffer_reply, write_query_directory_request,
};
pub use error::{ErrorReply, read_error_reply, write_error_reply};
pub use info::{
    QueryInfoRequest, SetInfoReply, SetInfoRequest, read_query_info_request, read_set_info_reply,
    read_set_info_request, write_query_info_request, write_set_info_reply, write_set_info_request,
};
pub use lease::{
    LeaseAck, LeaseBreak, read_lease_ack, read_lease_break, write_lease_ack, write_lease_break,
};
pub use lock::{LockRequest, read_lock_request, write_lock_request};
pub use smb_field::BodyFault;
