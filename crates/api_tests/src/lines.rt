//! Lines of a source, of which some are no text and some reads fail.

use fs_lines::{Lines, NextLine};
use smb_base::{Bytes, U64List};
use smb_link::{Failed, MemSource, Source, SureSource};
use std::process::Abort;

fn bytes(rt: &(impl Abort + AllocGlobal), b: &[u8]) -> Bytes {
    match Bytes::of(rt.alloc(), b) {
        Ok(bytes) => bytes,
        Err(_) => panic!(rt; "no memory"),
    }
}

// A source that gives one byte a read.
#[derive(Drop)]
struct OneByOne {
    source: SureSource,
}

impl Source for OneByOne {
    ghost use Rattle.std.specs.Prelude.{Some};

    ghost left = { λ s. Some s.source };

    ghost faults = { λ _. 0 };

    fn read(&mut self, buf: &mut [u8]) -> Result<usize, Failed> {
        if buf.is_empty() {
            return self.source.read(buf);
        }
        self.source.read(&mut buf[..1])
    }
}

// The next answer is this line, with this number.
fn gives<S: Source>(rt: &impl Abort, lines: &mut Lines, source: &mut S, line: &str, number: u64) {
    match lines.next(source) {
        NextLine::Line(text) => assert_eq!(rt; text.as_str(), line),
        other => panic!(rt; "{other:?} in place of {line}"),
    }
    assert_eq!(rt; lines.number(), number);
}

#[test]
fn lines_come_byte_by_byte_and_one_that_is_not_text_is_refused(rt: HostRuntime) {
    let mut source = OneByOne {
        source: SureSource::new(bytes(&rt, b"a\r\n\xff\xfe\n\xe2\x82\xac\n\xc3")),
    };
    let mut lines = Lines::new(rt.alloc());
    gives(&rt, &mut lines, &mut source, "a\r", 1);
    assert!(rt; matches!(lines.next(&mut source), NextLine::NotText));
    gives(&rt, &mut lines, &mut source, "\u{20ac}", 3);
    assert!(rt; matches!(lines.next(&mut source), NextLine::NotText));
    assert!(rt; matches!(lines.next(&mut source), NextLine::End));
    assert!(rt; matches!(lines.next(&mut source), NextLine::End));
    assert_eq!(rt; lines.number(), 4);
}

#[test]
fn a_failed_read_is_told_and_loses_nothing(rt: HostRuntime) {
    let Ok(fail) = U64List::of(rt.alloc(), &[0, 2]) else {
        panic!(rt; "no memory");
    };
    let mut source = MemSource::new(bytes(&rt, b"one\ntwo"), fail);
    let mut lines = Lines::new(rt.alloc());
    assert!(rt; matches!(lines.next(&mut source), NextLine::Failed));
    assert_eq!(rt; lines.number(), 0);
    gives(&rt, &mut lines, &mut source, "one", 1);
    assert!(rt; matches!(lines.next(&mut source), NextLine::Failed));
    assert_eq!(rt; lines.number(), 1);
    gives(&rt, &mut lines, &mut source, "two", 2);
    assert!(rt; matches!(lines.next(&mut source), NextLine::End));
}
