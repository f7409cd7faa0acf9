//! The real outside: a reader, a writer, a TCP connection and the machine's clock. These few lines are trusted to do what their
//! names say: no contract can state which bytes the system gives or takes, so they tell nothing of content and only count.

ghost use Rattle.std.specs.Prelude.{◌≡◌, ◌≤◌, ◌<◌, [], None, true, length};
ghost use Rattle.std.specs.Option.{is_some};
ghost use Rattle.smb_link.specs.Count.{counted};
ghost use Rattle.smb_link.specs.Story.{IfBytes};

use crate::faults::{Failed, Got, LinkFail};
use crate::mark::Mark;
use crate::places::PlaceList;
use crate::traits::{Clock, Link, Sink, Source};
use smb_base::NoMemory;
use std::alloc::Global;
use std::io::{ErrorKind, Read, Write};
use std::net::{Net, OpenStream, TcpStream};
use std::time::{Duration, Instant};

/// A reader as a source, as standard input.
#[derive(Drop)]
pub struct ReadSource<R> {
    reader: R,
    faults: u64,
}

impl<R: Read> ReadSource<R> {
    /// The source that reads from this reader.
    pub fn new(reader: R) -> ReadSource<R>
        ensures reader { result.reader ≡ reader }
        ensures faults { result.faults ≡ 0 }
    {
        ReadSource { reader, faults: 0 }
    }
}

impl<R: Read> Source for ReadSource<R> {
    ghost left = { λ _. None };

    ghost faults = { λ s. s.faults };

    fn read(&mut self, buf: &mut [u8]) -> Result<usize, Failed> {
        match self.reader.read(buf) {
            Ok(n) => Ok(n),
            Err(_) => {
                self.faults = self.faults.saturating_add(1);
                Err(Failed)
            }
        }
    }
}

/// A writer as a sink, as standard output.
#[derive(Drop)]
pub struct WriteSink<W> {
    writer: W,
    faults: u64,
    stalls: u64,
}

impl<W: Write> WriteSink<W> {
    /// The sink that writes to this writer.
    pub fn new(writer: W) -> WriteSink<W>
        ensures writer { result.writer ≡ writer }
        ensures faults { result.faults ≡ 0 }
        ensures stalls { result.stalls ≡ 0 }
    {
        WriteSink {
            writer,
            faults: 0,
            stalls: 0,
        }
    }
}

impl<W: Write> Sink for WriteSink<W> {
    ghost written = { λ _. None };

    ghost faults = { λ s. s.faults };

    ghost stalls = { λ s. s.stalls };

    fn write(&mut self, bytes: &[u8]) -> Result<usize, Failed> {
        match self.writer.write(bytes) {
            Ok(n) => {
                if n == 0 && !bytes.is_empty() {
                    self.stalls = self.stalls.saturating_add(1);
                }
                Ok(n)
            }
            Err(_) => {
                self.faults = self.faults.saturating_add(1);
                Err(Failed)
            }
        }
    }
}

/// How long a receive waits for bytes before it is quiet, in milliseconds.
const QUIET_MS: u64 = 100;

/// How long a send waits for a server that takes no bytes before it fails, in seconds.
const STUCK_S: u64 = 30;

/// A TCP connection to a server, one at a time (MS-SMB2 2.1, Direct TCP). A receive is quiet after 100 ms without bytes. A send
/// that the other side does not take for 30 s has failed.
#[derive(Drop)]
pub struct TcpLink<N: Net> {
    alloc: Global,
    net: N,
    stream: Option<N::Stream>,
    connect_faults: u64,
    cuts: u64,
    own_cuts: u64,
    quiets: u64,
    places: PlaceList,
}

impl<N: Net> TcpLink<N> {
    /// A link with no connection yet.
    pub fn new(alloc: Global, net: N) -> TcpLink<N>
        ensures stream { result.stream ≡ None }
        ensures connect_faults { result.connect_faults ≡ 0 }
        ensures cuts { result.cuts ≡ 0 }
        ensures own_cuts { result.own_cuts ≡ 0 }
        ensures quiets { result.quiets ≡ 0 }
        ensures places { result.places ≡ [] }
    {
        TcpLink {
            alloc,
            net,
            stream: None,
            connect_faults: 0,
            cuts: 0,
            own_cuts: 0,
            quiets: 0,
            places: PlaceList::new(alloc),
        }
    }

    /// Gives the connection up.
    fn cut(&mut self)
        ensures stream { self.new.stream ≡ None }
        ensures connect_faults { self.new.connect_faults ≡ self.old.connect_faults }
        ensures cuts { self.new.cuts ≡ counted self.old.cuts true }
        ensures own_cuts { self.new.own_cuts ≡ self.old.own_cuts }
        ensures quiets { self.new.quiets ≡ self.old.quiets }
        ensures places { self.new.places ≡ self.old.places }
    {
        self.stream = None;
        self.cuts = self.cuts.saturating_add(1);
    }
}

/// A connection whose reads wait a while only and whose writes do not wait for good.
fn open<N: Net>(net: &N, host: &str, port: u16) -> Option<N::Stream> {
    let stream = match TcpStream::connect(net, (host, port)) {
        Ok(stream) => stream,
        Err(_) => return None,
    };
    let quiet = Duration::from_millis(QUIET_MS);
    let stuck = Duration::from_secs(STUCK_S);
    if stream.set_read_timeout(Some(quiet)).is_err()
        || stream.set_write_timeout(Some(stuck)).is_err()
    {
        return None;
    }
    let _ = stream.set_nodelay(true);
    Some(stream)
}

impl<N: Net> Link for TcpLink<N> {
    ghost story = { λ _. None };

    ghost stands = { λ l. is_some l.stream };

    ghost connect_faults = { λ l. l.connect_faults };

    ghost cuts = { λ l. l.cuts };

    ghost own_cuts = { λ l. l.own_cuts };

    ghost quiets = { λ l. l.quiets };

    ghost places = { λ l. l.places };

    fn connect(&mut self, host: &str, port: u16) -> Result<(), LinkFail> {
        if self.places.go(self.alloc, host, port).is_err() {
            return Err(LinkFail::NoMemory);
        }
        if self.stream.is_some() {
            self.cut();
            self.own_cuts = self.own_cuts.saturating_add(1);
        }
        match open(&self.net, host, port) {
            Some(stream) => {
                self.stream = Some(stream);
                Ok(())
            }
            None => {
                self.connect_faults = self.connect_faults.saturating_add(1);
                Err(LinkFail::Failed)
            }
        }
    }

    fn send(&mut self, frame: &[u8]) -> Result<(), LinkFail> {
        let sent = match &mut self.stream {
            Some(stream) => stream.write_all(frame).is_ok(),
            None => false,
        };
        if sent {
            return Ok(());
        }
        self.cut();
        Err(LinkFail::Failed)
    }

    fn receive(&mut self, buf: &mut [u8]) -> Got {
        let got = match &mut self.stream {
            Some(stream) => received(stream, buf),
            None => Got::Closed,
        };
        match got {
            Got::Closed => self.cut(),
            Got::Quiet => self.quiets = self.quiets.saturating_add(1),
            _ => {}
        }
        got
    }

    fn mark(&mut self, _mark: &Mark) -> Result<(), NoMemory> {
        Ok(())
    }
}

/// One read of a connection. A read that a signal broke off is quiet.
fn received<S: Read>(stream: &mut S, buf: &mut [u8]) -> Got
    requires { 0 < length buf.old }
    ensures { IfBytes result (λ n. (1 ≤ n) × (n ≤ length buf.old)) }
{
    match stream.read(buf) {
        Ok(0) => Got::Closed,
        Ok(n) => Got::Bytes(n),
        Err(e) => match e.kind() {
            ErrorKind::WouldBlock | ErrorKind::TimedOut | ErrorKind::Interrupted => Got::Quiet,
            _ => Got::Closed,
        },
    }
}

/// The machine's clock. Its readings begin near 0.
#[derive(Drop)]
pub struct HostClock<C> {
    clock: C,
    start: Option<Instant>,
}

impl<C: std::time::Clock> HostClock<C> {
    /// A clock that starts at its first reading.
    pub fn new(clock: C) -> HostClock<C>
        ensures clock { result.clock ≡ clock }
        ensures start { result.start ≡ None }
    {
        HostClock { clock, start: None }
    }
}

impl<C: std::time::Clock> Clock for HostClock<C> {
    ghost told = { λ _. None };

    /// Milliseconds since the first reading; 0 where the machine does not tell.
    fn now(&mut self) -> u64 {
        let now = match Instant::now(&self.clock) {
            Ok(now) => now,
            Err(_) => return 0,
        };
        match self.start {
            Some(start) => u64::try_from(now.duration_since(start).as_millis()).unwrap_or(u64::MAX),
            None => {
                self.start = Some(now);
                0
            }
        }
    }
}
