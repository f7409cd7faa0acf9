//! Ids, keys, statuses and error numbers.

use std::alloc::{AllocError, AllocFailed};
use thiserror::Error;

/// The id of an open that the server gives and the client sends back (MS-SMB2 2.2.14.1).
#[derive(Clone, Copy, Debug, PartialEq, Eq)]
pub struct Fid {
    /// The half that outlives a lost connection.
    pub persistent: u64,
    /// The half that names the open on its connection.
    pub volatile: u64,
}

/// The number of a message on its connection (MS-SMB2 2.2.1).
#[derive(Clone, Copy, Debug, PartialEq, Eq)]
pub struct Mid(pub u64);

/// The key of a lease, sixteen bytes that the client chose (MS-SMB2 2.2.13.2.8).
#[derive(Clone, Copy, Debug, PartialEq, Eq)]
pub struct Key(pub [u8; 16]);

/// A status of the server (MS-ERREF 2.3.1); 0 is success.
#[derive(Clone, Copy, Debug, PartialEq, Eq)]
pub struct Status(pub u32);

impl Status {
    /// The request was done.
    pub const SUCCESS: Status = Status(0);
    /// A first reply: the request is under way, and its reply comes later.
    pub const PENDING: Status = Status(0x0000_0103);
    /// The answer is longer than was asked for, and is cut there.
    pub const BUFFER_OVERFLOW: Status = Status(0x8000_0005);
    /// A listing is at its end.
    pub const NO_MORE_FILES: Status = Status(0x8000_0006);
    /// A field of the request has a value that it may not have.
    pub const INVALID_PARAMETER: Status = Status(0xC000_000D);
    /// A read at or past the end of the file.
    pub const END_OF_FILE: Status = Status(0xC000_0011);
    /// A session needs one more message.
    pub const MORE_PROCESSING_REQUIRED: Status = Status(0xC000_0016);
    /// The open, or its user, may not do this.
    pub const ACCESS_DENIED: Status = Status(0xC000_0022);
    /// The name is none that a file can have.
    pub const OBJECT_NAME_INVALID: Status = Status(0xC000_0033);
    /// The directory has no such name.
    pub const OBJECT_NAME_NOT_FOUND: Status = Status(0xC000_0034);
    /// The name is there already.
    pub const OBJECT_NAME_COLLISION: Status = Status(0xC000_0035);
    /// A directory on the way is not there, or is none.
    pub const OBJECT_PATH_NOT_FOUND: Status = Status(0xC000_003A);
    /// Another open does not share what is wanted.
    pub const SHARING_VIOLATION: Status = Status(0xC000_0043);
    /// A lock of another open is in the way of a read or a write.
    pub const FILE_LOCK_CONFLICT: Status = Status(0xC000_0054);
    /// A lock of another open is in the way of a lock.
    pub const LOCK_NOT_GRANTED: Status = Status(0xC000_0055);
    /// The file goes once its opens are closed.
    pub const DELETE_PENDING: Status = Status(0xC000_0056);
    /// The range to unlock is not held so.
    pub const RANGE_NOT_LOCKED: Status = Status(0xC000_007E);
    /// The share has no room left.
    pub const DISK_FULL: Status = Status(0xC000_007F);
    /// It is a directory, and a file was wanted.
    pub const FILE_IS_A_DIRECTORY: Status = Status(0xC000_00BA);
    /// The server does not do this.
    pub const NOT_SUPPORTED: Status = Status(0xC000_00BB);
    /// The directory has entries.
    pub const DIRECTORY_NOT_EMPTY: Status = Status(0xC000_0101);
    /// It is a file, and a directory was wanted.
    pub const NOT_A_DIRECTORY: Status = Status(0xC000_0103);
    /// The file may not be deleted.
    pub const CANNOT_DELETE: Status = Status(0xC000_0121);
    /// The file id names no open.
    pub const FILE_CLOSED: Status = Status(0xC000_0128);
}

/// An error number with the value that Linux gives it.
#[derive(Clone, Copy, Debug, PartialEq, Eq)]
pub struct Errno(pub u32);

impl Errno {
    /// No such file or directory.
    pub const ENOENT: Errno = Errno(2);
    /// Input or output error.
    pub const EIO: Errno = Errno(5);
    /// No such descriptor, or it is not open for this.
    pub const EBADF: Errno = Errno(9);
    /// Out of memory.
    pub const ENOMEM: Errno = Errno(12);
    /// Permission denied.
    pub const EACCES: Errno = Errno(13);
    /// Device or resource busy.
    pub const EBUSY: Errno = Errno(16);
    /// The file exists.
    pub const EEXIST: Errno = Errno(17);
    /// Not a directory.
    pub const ENOTDIR: Errno = Errno(20);
    /// Is a directory.
    pub const EISDIR: Errno = Errno(21);
    /// Invalid argument.
    pub const EINVAL: Errno = Errno(22);
    /// Too many open files.
    pub const EMFILE: Errno = Errno(24);
    /// File too large.
    pub const EFBIG: Errno = Errno(27);
    /// No space left.
    pub const ENOSPC: Errno = Errno(28);
    /// Read-only file system.
    pub const EROFS: Errno = Errno(30);
    /// Name too long.
    pub const ENAMETOOLONG: Errno = Errno(36);
    /// Directory not empty.
    pub const ENOTEMPTY: Errno = Errno(39);
    /// Too many symbolic links.
    pub const ELOOP: Errno = Errno(40);
    /// Protocol error.
    pub const EPROTO: Errno = Errno(71);
    /// A name that cannot be sent.
    pub const EILSEQ: Errno = Errno(84);
    /// Operation not supported.
    pub const EOPNOTSUPP: Errno = Errno(95);
    /// Connection reset.
    pub const ECONNRESET: Errno = Errno(104);
    /// The host is down.
    pub const EHOSTDOWN: Errno = Errno(112);
    /// The server's own error, for which there is no number.
    pub const EREMOTEIO: Errno = Errno(121);
}

/// Memory ran out. What the call was to change is as it was, unless the call says otherwise.
#[derive(Clone, Copy, Debug, PartialEq, Eq, Error)]
#[error("out of memory")]
pub struct NoMemory;

impl From<AllocError> for NoMemory {
    fn from(_error: AllocError) -> NoMemory {
        NoMemory
    }
}

impl<T: Drop> From<AllocFailed<T>> for NoMemory {
    fn from(_error: AllocFailed<T>) -> NoMemory {
        NoMemory
    }
}
