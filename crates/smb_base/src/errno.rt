//! The error number of a status.

ghost use Rattle.std.specs.Prelude.{◌≡◌};
ghost use Rattle.smb_base.specs.ErrorTable.{error_number};

use crate::names::{Errno, Status};

/// The error number that a call answers where the server refused with this status. A status that has none of its own, success
/// among them, gives EREMOTEIO. It takes no memory.
pub fn errno_of(status: Status) -> Errno
    ensures { result.0 ≡ error_number status.0 }
{
    match status {
        Status::ACCESS_DENIED => Errno::EACCES,
        Status::OBJECT_NAME_INVALID => Errno::ENOENT,
        Status::OBJECT_NAME_NOT_FOUND => Errno::ENOENT,
        Status::OBJECT_NAME_COLLISION => Errno::EEXIST,
        Status::OBJECT_PATH_NOT_FOUND => Errno::ENOENT,
        Status::SHARING_VIOLATION => Errno::EBUSY,
        Status::FILE_LOCK_CONFLICT => Errno::EACCES,
        Status::LOCK_NOT_GRANTED => Errno::EACCES,
        Status::DELETE_PENDING => Errno::EBUSY,
        Status::DISK_FULL => Errno::ENOSPC,
        Status::FILE_IS_A_DIRECTORY => Errno::EISDIR,
        Status::NOT_SUPPORTED => Errno::EOPNOTSUPP,
        Status::DIRECTORY_NOT_EMPTY => Errno::ENOTEMPTY,
        Status::NOT_A_DIRECTORY => Errno::ENOTDIR,
        Status::CANNOT_DELETE => Errno::EACCES,
        _ => Errno::EREMOTEIO,
    }
}
