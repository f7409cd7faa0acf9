//! How many names a reply has.

ghost use Rattle.std.specs.Prelude.{◌≡◌, ◌≤◌, ◌<◌, ◌+◌, ◌^◌, length};
ghost use Rattle.share_state.specs.Listing.{size_in_reply, raised_to_8, fitting, in_reply};

use share_state::ShareName;

// The bytes of a name in a reply.
fn size_in_reply(name: &ShareName) -> u128
    ensures value { result ≡ size_in_reply name.now }
    ensures bound { result < 2 ^ 70 }
{
    80 + 2 * (name.name.len() as u128)
}

// A number of bytes, raised to a multiple of 8.
fn raised_to_8(bytes: u128) -> u128
    requires { bytes < 2 ^ 80 }
    ensures value { result ≡ raised_to_8 bytes }
    ensures bound { result ≤ bytes + 7 }
{
    (bytes + 7) / 8 * 8
}

// How many of these names fit behind so many bytes.
fn fitting(room: u32, before: u128, names: &[ShareName]) -> usize
    requires { before < 2 ^ 70 }
    ensures value { result ≡ fitting room before names.now }
    ensures bound { result ≤ length names.now }
{
    let mut count = 0;
    let mut used = before;
    for name in names {
        used = raised_to_8(used) + size_in_reply(name);
        if used > room as u128 {
            break;
        }
        count += 1;
    }
    count
}

// How many of the names that are left a reply has.
pub(crate) fn in_reply(room: u32, names: &[ShareName]) -> usize
    ensures value { result ≡ in_reply room names.now }
    ensures bound { result ≤ length names.now }
{
    match names.split_first() {
        Some((first, rest)) => 1 + fitting(room, size_in_reply(first), rest),
        None => 0,
    }
}
