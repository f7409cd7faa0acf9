//! Numbers in bytes, the lowest byte first.

ghost use Rattle.std.specs.Prelude.{◌≡◌, ◌+◌, ◌≤◌, length};
ghost use Rattle.smb_le.specs.Numbers.{number_at, bytes_of, overwritten};

use byteorder::{ByteOrder, LittleEndian};

/// The number of 2 bytes at `at`.
pub fn get_u16(b: &[u8], at: usize) -> u16
    requires { at + 2 ≤ length b.now }
    ensures { result ≡ number_at 2 at b.now }
{
    LittleEndian::read_u16(&b[at..at + 2])
}

/// The number of 4 bytes at `at`.
pub fn get_u32(b: &[u8], at: usize) -> u32
    requires { at + 4 ≤ length b.now }
    ensures { result ≡ number_at 4 at b.now }
{
    LittleEndian::read_u32(&b[at..at + 4])
}

/// The number of 8 bytes at `at`.
pub fn get_u64(b: &[u8], at: usize) -> u64
    requires { at + 8 ≤ length b.now }
    ensures { result ≡ number_at 8 at b.now }
{
    LittleEndian::read_u64(&b[at..at + 8])
}

/// Writes a number over the 2 bytes at `at`.
pub fn put_u16(b: &mut [u8], at: usize, v: u16)
    requires { at + 2 ≤ length b.old }
    ensures { b.new ≡ overwritten at (bytes_of 2 v) b.old }
{
    LittleEndian::write_u16(&mut b[at..at + 2], v);
}

/// Writes a number over the 4 bytes at `at`.
pub fn put_u32(b: &mut [u8], at: usize, v: u32)
    requires { at + 4 ≤ length b.old }
    ensures { b.new ≡ overwritten at (bytes_of 4 v) b.old }
{
    LittleEndian::write_u32(&mut b[at..at + 4], v);
}

/// Writes a number over the 8 bytes at `at`.
pub fn put_u64(b: &mut [u8], at: usize, v: u64)
    requires { at + 8 ≤ length b.old }
    ensures { b.new ≡ overwritten at (bytes_of 8 v) b.old }
{
    LittleEndian::write_u64(&mut b[at..at + 8], v);
}
