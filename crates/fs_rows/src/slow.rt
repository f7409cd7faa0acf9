//! A source that gives few bytes at a time.

use smb_link::{Failed, MemSource, Source};

/// A source in memory of which a read gives no more than so many bytes.
#[derive(Drop)]
pub struct Slow {
    source: MemSource,
    most: usize,
}

impl Slow {
    /// The source of which a read gives no more than `most` bytes, and at least one.
    pub fn new(source: MemSource, most: usize) -> Slow {
        Slow { source, most }
    }
}

impl Source for Slow {
    ghost use Rattle.std.specs.Prelude.{Some};

    ghost left = { λ s. Some s.source.left };

    ghost faults = { λ s. s.source.faults };

    fn read(&mut self, buf: &mut [u8]) -> Result<usize, Failed> {
        let room = buf.len().min(self.most.max(1));
        self.source.read(&mut buf[..room])
    }
}
