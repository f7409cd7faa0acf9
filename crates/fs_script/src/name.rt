//! Names within the text of an answer.

ghost use Rattle.std.specs.Prelude.{◌≡◌, ◌<◌, ◌++◌, OnOk, string_bytes};
ghost use Rattle.fs_script.specs.Answers.{upper_digit, is_plain, escaped_byte, escaped};

use smb_base::NoMemory;

/// Adds a name: each byte outside 0x21 to 0x7E, and `%` itself, as `%` and two hex digits. It fails only for want of memory, and part
/// of the name may then be added.
pub(crate) fn put_name(out: &mut String, name: &str) -> Result<(), NoMemory>
    ensures { OnOk result (string_bytes out.new ≡ string_bytes out.old ++ escaped name.now) }
{
    for byte in name.as_bytes() {
        put_byte(out, *byte)?;
    }
    Ok(())
}

// Adds one byte of a name.
fn put_byte(out: &mut String, byte: u8) -> Result<(), NoMemory>
    ensures { OnOk result (string_bytes out.new ≡ string_bytes out.old ++ escaped_byte byte) }
{
    if is_plain(byte) {
        out.push(char::from(byte))?;
        return Ok(());
    }
    out.push('%')?;
    out.push(upper_digit(byte / 16))?;
    out.push(upper_digit(byte % 16))?;
    Ok(())
}

// Whether a byte stands for itself.
fn is_plain(byte: u8) -> bool
    ensures { result ≡ is_plain byte }
{
    0x21 <= byte && byte <= 0x7E && byte != b'%'
}

// An upper-case hex digit.
fn upper_digit(n: u8) -> char
    requires { n < 16 }
    ensures { result ≡ upper_digit n }
{
    if n < 10 {
        char::from(b'0' + n)
    } else {
        char::from(b'A' + (n - 10))
    }
}
