//! The replies of a server, whole messages as bytes: those of a mount, and a frame with the three of a `stat`.

use crate::requests::set;
use smb_head::command::{CLOSE, CREATE, NEGOTIATE, QUERY_INFO, SESSION_SETUP, TREE_CONNECT};
use smb_le::put_u64;

/// Two bytes of a message: their place in it, and their number, the low byte first.
type Field = (usize, u16);

/// What the header of each reply has: the protocol, its own size, that it is a reply, the tree and the session (MS-SMB2 2.2.1.2).
const HEAD: [Field; 6] = [
    (0, 0x53FE),
    (2, 0x424D),
    (4, 64),
    (16, 1),
    (36, 0x99),
    (40, 0x88),
];

/// How long a frame with the replies to CREATE, QUERY_INFO and CLOSE is, and where the second and the third of them begin.
const STAT: usize = 452;

const SECOND: usize = 152;

const THIRD: usize = 328;

/// The reply to NEGOTIATE: SMB 2.1, and no size above 1 MiB (MS-SMB2 2.2.4).
pub fn negotiated() -> [u8; 128] {
    let fields = [
        (64, 65),
        (68, 0x0210),
        (88, 7),
        (94, 16),
        (98, 16),
        (102, 16),
        (120, 128),
    ];
    let mut bytes = [0; 128];
    put_reply(&mut bytes, 0, NEGOTIATE, &[(14, 1)]);
    put_fields(&mut bytes, 0, &fields);
    bytes
}

/// The reply to SESSION_SETUP: a guest (MS-SMB2 2.2.6).
pub fn set_up() -> [u8; 72] {
    let mut bytes = [0; 72];
    put_reply(&mut bytes, 0, SESSION_SETUP, &[(14, 1), (24, 1)]);
    put_fields(&mut bytes, 0, &[(64, 9), (66, 1), (68, 72)]);
    bytes
}

/// The reply to TREE_CONNECT: a disk, and so many credits (MS-SMB2 2.2.10).
pub fn tree_connected(credits: u16) -> [u8; 80] {
    let mut bytes = [0; 80];
    put_reply(&mut bytes, 0, TREE_CONNECT, &[(14, credits), (24, 2)]);
    put_fields(&mut bytes, 0, &[(64, 16), (66, 1)]);
    bytes
}

/// A frame with the replies to the CREATE, the QUERY_INFO and the CLOSE of a `stat`, each of which gives the credit back that its request
/// took. The file has one name and five bytes.
#[derive(Drop)]
pub struct StatReplies {
    bytes: [u8; STAT],
}

impl StatReplies {
    /// The replies to requests with the ids 0, 1 and 2.
    pub fn new() -> StatReplies {
        let mut bytes = [0; STAT];
        put_reply(&mut bytes, 0, CREATE, &[(14, 1), (20, 152)]);
        put_fields(&mut bytes, 0, &[(64, 89), (68, 1), (128, 1), (136, 2)]);
        put_reply(&mut bytes, SECOND, QUERY_INFO, &[(14, 1), (20, 176)]);
        put_fields(&mut bytes, SECOND, &INFO);
        put_reply(&mut bytes, THIRD, CLOSE, &[(14, 1)]);
        put_fields(&mut bytes, THIRD, &[(64, 60)]);
        StatReplies { bytes }
    }

    /// Makes them those to the requests with the ids from this one on.
    pub fn address(&mut self, first: u64) {
        put_u64(&mut self.bytes, 24, first);
        put_u64(&mut self.bytes, SECOND + 24, first.saturating_add(1));
        put_u64(&mut self.bytes, THIRD + 24, first.saturating_add(2));
    }

    /// Lends the frame, without the four bytes of its length.
    pub fn as_slice(&self) -> &[u8] {
        &self.bytes
    }
}

/// What is known of a file, as the reply to QUERY_INFO has it: where it stands and how long it is, and in it the size, the number of
/// names and the number of the file (MS-SMB2 2.2.38, MS-FSCC 2.4.2).
const INFO: [Field; 6] = [(64, 9), (66, 72), (68, 100), (120, 5), (128, 1), (136, 2)];

// Writes what the header of a reply has, from this place on: its command, and these fields.
fn put_reply(bytes: &mut [u8], start: usize, command: u16, fields: &[Field]) {
    put_fields(bytes, start, &HEAD);
    put_field(bytes, start.saturating_add(12), command);
    put_fields(bytes, start, fields);
}

// Writes fields of the message that begins at this place.
fn put_fields(bytes: &mut [u8], start: usize, fields: &[Field]) {
    for (at, number) in fields {
        put_field(bytes, start.saturating_add(*at), *number);
    }
}

// Writes a number over the two bytes at a place.
fn put_field(bytes: &mut [u8], at: usize, number: u16) {
    let [low, high] = number.to_le_bytes();
    set(bytes, at, low);
    set(bytes, at.saturating_add(1), high);
}
