//! The numbers of the commands (MS-SMB2 2.2.1.2).

/// NEGOTIATE: the dialect, and what the server can (MS-SMB2 2.2.3).
pub const NEGOTIATE: u16 = 0;

/// SESSION_SETUP: a session of a user (MS-SMB2 2.2.5).
pub const SESSION_SETUP: u16 = 1;

/// LOGOFF: the end of a session (MS-SMB2 2.2.7).
pub const LOGOFF: u16 = 2;

/// TREE_CONNECT: a tree, the connection to a share (MS-SMB2 2.2.9).
pub const TREE_CONNECT: u16 = 3;

/// TREE_DISCONNECT: the end of a tree (MS-SMB2 2.2.11).
pub const TREE_DISCONNECT: u16 = 4;

/// CREATE: opens a file or a directory, or makes it (MS-SMB2 2.2.13).
pub const CREATE: u16 = 5;

/// CLOSE: the end of an open (MS-SMB2 2.2.15).
pub const CLOSE: u16 = 6;

/// FLUSH: has what was written reach the disk (MS-SMB2 2.2.17).
pub const FLUSH: u16 = 7;

/// READ: bytes of an open (MS-SMB2 2.2.19).
pub const READ: u16 = 8;

/// WRITE: bytes to an open (MS-SMB2 2.2.21).
pub const WRITE: u16 = 9;

/// LOCK: locks ranges of an open, and gives them up (MS-SMB2 2.2.26).
pub const LOCK: u16 = 10;

/// ECHO: whether the server still answers (MS-SMB2 2.2.28).
pub const ECHO: u16 = 13;

/// QUERY_DIRECTORY: the names in a directory (MS-SMB2 2.2.33).
pub const QUERY_DIRECTORY: u16 = 14;

/// QUERY_INFO: what is known of an open (MS-SMB2 2.2.37).
pub const QUERY_INFO: u16 = 16;

/// SET_INFO: changes what is known of an open (MS-SMB2 2.2.39).
pub const SET_INFO: u16 = 17;

/// OPLOCK_BREAK: the notice that an oplock or a lease is broken, and its acknowledgement (MS-SMB2 2.2.23).
pub const OPLOCK_BREAK: u16 = 18;
