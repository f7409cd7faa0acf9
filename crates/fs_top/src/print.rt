//! Printing to a sink.

ghost use Rattle.std.specs.Prelude.{MatchBool};
ghost use Rattle.fs_top.specs.Printing.{held_by, TookAll, TookFront, PrintedAs};

use smb_link::Sink;

/// Writes a text. It answers whether the sink took the whole of it; where it refuses, nothing more is written.
pub(crate) fn put_all<K: Sink>(out: &mut K, text: &[u8]) -> bool
    ensures { MatchBool result
        (TookAll text.now (held_by K.written K.faults K.stalls out.old) (held_by K.written K.faults K.stalls out.new))
        (TookFront text.now (held_by K.written K.faults K.stalls out.old) (held_by K.written K.faults K.stalls out.new)) }
{
    let mut at = 0;
    while at < text.len() {
        match out.write(&text[at..]) {
            Ok(0) => return false,
            Ok(n) => at += n,
            Err(_) => return false,
        }
    }
    true
}

/// Prints a line, and answers this status, or 8 where the sink refuses the line.
pub(crate) fn print_line<K: Sink>(out: &mut K, line: &str, status: u8) -> u8
    ensures { PrintedAs line.now status (held_by K.written K.faults K.stalls out.old) (held_by K.written K.faults K.stalls out.new) result }
{
    if put_all(out, line.as_bytes()) {
        status
    } else {
        8
    }
}
