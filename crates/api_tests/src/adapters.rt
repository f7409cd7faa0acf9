//! The sources and sinks that never fail, and the real outside: a reader, a writer, a TCP connection and the machine's clock.

use smb_base::Bytes;
use smb_link::{
    Clock, Failed, Got, HostClock, Link, LinkFail, Mark, ReadSource, Sink, Source, SureSink,
    SureSource, TcpLink, WriteSink,
};
use std::io;
use std::io::{Read, Write};
use std::net::TcpListener;
use std::process::Abort;

#[test]
fn what_never_fails_gives_and_takes_all(rt: HostRuntime) {
    let Ok(bytes) = Bytes::of(rt.alloc(), b"xy") else {
        panic!(rt; "no memory");
    };
    let mut source = SureSource::new(bytes);
    let mut buf = [0; 3];
    assert!(rt; matches!(source.read(&mut buf), Ok(2)));
    assert_eq!(rt; buf, [b'x', b'y', 0]);
    assert!(rt; matches!(source.read(&mut buf), Ok(0)));
    let mut sink = SureSink::new(rt.alloc());
    assert!(rt; matches!(sink.write(b"one "), Ok(4)) && matches!(sink.write(b"two"), Ok(3)));
    assert_eq!(rt; sink.written(), b"one two".as_slice());
}

/// A reader and writer that fails at each call, as a disk that is gone.
#[derive(Drop)]
struct Broken;

impl Read for Broken {
    fn read(&mut self, _buf: &mut [u8]) -> io::Result<usize> {
        Err(io::Error::from(io::ErrorKind::Other))
    }
}

impl Write for Broken {
    fn write(&mut self, _buf: &[u8]) -> io::Result<usize> {
        Err(io::Error::from(io::ErrorKind::Other))
    }

    fn flush(&mut self) -> io::Result<()> {
        Ok(())
    }
}

#[test]
fn a_reader_and_a_writer_serve_as_source_and_sink(rt: HostRuntime) {
    let mut source = ReadSource::new(b"in".as_slice());
    let mut buf = [0; 4];
    assert!(rt; matches!(source.read(&mut buf), Ok(2)));
    assert_eq!(rt; &buf[..2], b"in".as_slice());
    assert!(rt; matches!(source.read(&mut buf), Ok(0)));
    assert!(rt; matches!(ReadSource::new(Broken).read(&mut buf), Err(Failed)));

    let mut sink = WriteSink::new(Vec::new(rt.alloc()));
    assert!(rt; matches!(sink.write(b"out"), Ok(3)));
    assert!(rt; matches!(WriteSink::new(Broken).write(b"out"), Err(Failed)));
}

#[test]
fn a_tcp_link_joins_sends_receives_waits_and_finds_the_end(rt: HostRuntime) {
    let Ok(listener) = TcpListener::bind(&rt, "127.0.0.1:0") else {
        panic!(rt; "no port");
    };
    let Ok(address) = listener.local_addr() else {
        panic!(rt; "no address");
    };
    let Ok(net) = rt.clone() else {
        panic!(rt; "no runtime");
    };
    let mut link = TcpLink::new(rt.alloc(), net);
    let mut buf = [0; 8];
    assert!(rt; link.mark(&Mark::End).is_ok());
    assert!(rt; matches!(link.receive(&mut buf), Got::Closed));
    assert!(rt; matches!(link.send(b"x"), Err(LinkFail::Failed)));
    assert!(rt; matches!(link.connect("127.0.0.1", address.port()), Ok(())));
    let Ok((mut peer, _)) = listener.accept() else {
        panic!(rt; "no peer");
    };
    assert!(rt; matches!(link.send(b"ping"), Ok(())));
    assert!(rt; matches!(peer.read(&mut buf), Ok(4)));
    assert_eq!(rt; &buf[..4], b"ping".as_slice());
    assert!(rt; matches!(link.receive(&mut buf), Got::Quiet));
    assert!(rt; peer.write_all(b"pong").is_ok());
    assert!(rt; matches!(link.receive(&mut buf), Got::Bytes(4)));
    assert_eq!(rt; &buf[..4], b"pong".as_slice());
    drop(peer);
    assert!(rt; matches!(link.receive(&mut buf), Got::Closed));
    drop(listener);
    assert!(rt;
        matches!(
            link.connect("127.0.0.1", address.port()),
            Err(LinkFail::Failed)
        )
    );
}

#[test]
fn the_machines_clock_starts_at_0_and_does_not_go_back(rt: HostRuntime) {
    let Ok(host) = rt.clone() else {
        panic!(rt; "no runtime");
    };
    let mut clock = HostClock::new(host);
    let first = clock.now();
    let second = clock.now();
    assert_eq!(rt; first, 0);
    assert!(rt; second < 60_000);
}
