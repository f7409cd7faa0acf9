//! The bodies of CREATE with its contexts, CLOSE, FLUSH, READ and WRITE. Each is read from a whole message and written behind its
//! header.
#![tactic(auto)]

mod close;
mod contexts;
mod create;
mod flush;
mod read;
mod write;

pub use close::{
    CloseReply, CloseRequest, read_close_reply, read_close_request, write_close_reply,
    write_close_request,
};
pub use contexts::{ContextSet, read_contexts, write_contexts};
pub use create::{
    CreateReply, CreateRequest, read_create_reply, read_create_request, write_create_reply,
    write_create_request,
};
pub use flush::{FlushRequest, read_flush_request, write_flush_request};
pub use read::{
    ReadReply, ReadRequest, read_read_reply, read_read_request, write_read_reply,
    write_read_request,
};
pub use smb_field::BodyFault;
pub use write::{
    WriteReply, WriteRequest, read_write_reply, read_write_request, write_write_reply,
    write_write_request,
};
