use crate::faults::{lookup_fault, net_fault, wire_fault};
use crate::tcp::send_all;
use crate::*;
use dm_edge::{Clock, EdgeFault, Net, NetCounts, NetFault, Sink, Wire, WireFault};
use dm_types::{Address, Attempt, ItemId, Text};
use std::alloc::{AllocError, Global};
use std::io::{Error, ErrorKind, Read, Write};
use std::net::TcpListener;
use std::test::Fail;
use std::time::Duration;
use std::{io, thread, time};

fn address(alloc: Global, host: &[u8], port: u16) -> Result<Address, AllocError> {
    Ok(Address {
        text: Text::new(alloc),
        host: Text::from_vec(Vec::from_slice(alloc, host)?),
        port,
        target: Text::new(alloc),
    })
}

/// Takes one connection, reads a request of 3 bytes and answers it.
fn serve(listener: &TcpListener) -> io::Result<[u8; 3]> {
    let (mut stream, _) = listener.accept()?;
    let mut request = [0; 3];
    stream.read_exact(&mut request)?;
    stream.write_all(b"hello world")?;
    Ok(request)
}

/// Receives to the end of the stream.
fn drain<W: Wire>(alloc: Global, wire: &mut W) -> Result<Vec<u8>, AllocError> {
    let mut all = Vec::new(alloc);
    let mut buf = [0; 4];
    for _ in 0..100 {
        match wire.receive(&mut buf) {
            Ok(size) if size > 0 => all.extend_from_slice(&buf[..size])?,
            _ => break,
        }
    }
    Ok(all)
}

#[test]
fn a_wire_goes_over_tcp(rt: HostRuntime) -> Result<(), Fail> {
    let listener = TcpListener::bind(&rt, "127.0.0.1:0")?;
    let port = listener.local_addr()?.port();
    let to = address(rt.alloc(), b"127.0.0.1", port)?;
    let server = thread::spawn(&rt, move || serve(&listener))
        .ok()
        .expect(&rt, "a thread");

    let mut net = TcpNet::new(rt.clone()?);
    let mut wire = net
        .connect(rt.alloc(), &to, ItemId(1), Attempt(1))
        .expect(&rt, "connects");
    let sent = wire.send(b"GET");
    let got = drain(rt.alloc(), &mut wire);
    net.close(wire);
    let request = server.join(&rt);
    assert_eq!(rt; sent, Ok(()));
    assert_eq!(rt; got?.as_slice(), b"hello world".as_slice());
    assert_eq!(rt; request.expect(&rt, "is served"), *b"GET");
    assert_eq!(rt; net.counts(), NetCounts::NONE);
    Ok(())
}

fn refusal<N: Net>(alloc: Global, net: &mut N, to: &Address) -> Option<NetFault> {
    match net.connect(alloc, to, ItemId(1), Attempt(1)) {
        Ok(wire) => {
            net.close(wire);
            None
        }
        Err(fault) => Some(fault),
    }
}

#[test]
fn a_net_counts_what_it_refuses(rt: HostRuntime) -> Result<(), Fail> {
    let mut net = TcpNet::new(rt.clone()?);
    let listener = TcpListener::bind(&rt, "127.0.0.1:0")?;
    let port = listener.local_addr()?.port();
    drop(listener);
    let closed = address(rt.alloc(), b"127.0.0.1", port)?;
    let nowhere = address(rt.alloc(), b"\xff", 80)?;
    assert_eq!(rt;
        refusal(rt.alloc(), &mut net, &closed),
        Some(NetFault::Refused)
    );
    assert_eq!(rt;
        refusal(rt.alloc(), &mut net, &nowhere),
        Some(NetFault::NoRoute)
    );
    let counts = net.counts();
    assert_eq!(rt; (counts.refused, counts.no_route), (1, 1));
    assert_eq!(rt; (counts.timeout, counts.failed), (0, 0));
    Ok(())
}

/// A stream that is interrupted, takes two bytes at a time, and breaks once it has taken `room`.
#[derive(Drop)]
struct Slow {
    taken: Vec<u8>,
    room: usize,
    interrupted: bool,
}

impl Write for Slow {
    fn write(&mut self, buf: &[u8]) -> io::Result<usize> {
        if !self.interrupted {
            self.interrupted = true;
            return Err(Error::from(ErrorKind::Interrupted));
        }
        if self.taken.len() >= self.room {
            return Err(Error::from(ErrorKind::BrokenPipe));
        }
        let size = buf.len().min(2);
        self.taken.extend_from_slice(&buf[..size])?;
        Ok(size)
    }

    fn flush(&mut self) -> io::Result<()> {
        Ok(())
    }
}

fn make_slow(alloc: Global, room: usize) -> Slow {
    Slow {
        taken: Vec::new(alloc),
        room,
        interrupted: false,
    }
}

#[test]
fn a_send_goes_on_after_a_part_and_a_signal(rt: HostRuntime) -> Result<(), Fail> {
    let mut whole = make_slow(rt.alloc(), 9);
    assert_eq!(rt; send_all(&mut whole, b"hello"), Ok(()));
    assert_eq!(rt; whole.taken.as_slice(), b"hello".as_slice());
    let mut broken = make_slow(rt.alloc(), 4);
    assert_eq!(rt; send_all(&mut broken, b"hello"), Err(WireFault::Failed));
    assert_eq!(rt; broken.taken.as_slice(), b"hell".as_slice());
    Ok(())
}

#[test]
fn a_sink_counts_its_faults(rt: HostRuntime) -> Result<(), Fail> {
    let mut sink = StreamSink::new(make_slow(rt.alloc(), 2));
    assert_eq!(rt; sink.write(b"hello"), Ok(2));
    assert_eq!(rt; sink.failed(), 0);
    assert_eq!(rt; sink.write(b"llo"), Err(EdgeFault::Failed));
    assert_eq!(rt; sink.failed(), 1);
    Ok(())
}

/// A clock that has no time.
#[derive(Drop)]
struct Stopped;

impl time::Clock for Stopped {
    fn monotonic(&self) -> io::Result<Duration> {
        Err(Error::from(ErrorKind::Unsupported))
    }

    fn since_1970(&self) -> io::Result<Duration> {
        Err(Error::from(ErrorKind::Unsupported))
    }
}

#[test]
fn a_clock_counts_from_1970(rt: HostRuntime) -> Result<(), Fail> {
    // 2020-09-13 is long past, and the year 5138 far off.
    let now = SystemClock::new(rt.clone()?).now();
    assert!(rt; now > 1_600_000_000_000 && now < 100_000_000_000_000);
    assert_eq!(rt; SystemClock::new(Stopped).now(), 0);
    Ok(())
}

#[test]
fn faults_are_told_by_their_kind(rt: HostRuntime) {
    let rows = [
        (
            ErrorKind::HostUnreachable,
            NetFault::NoRoute,
            WireFault::Failed,
        ),
        (
            ErrorKind::NetworkUnreachable,
            NetFault::NoRoute,
            WireFault::Failed,
        ),
        (
            ErrorKind::ConnectionRefused,
            NetFault::Refused,
            WireFault::Failed,
        ),
        (ErrorKind::TimedOut, NetFault::Timeout, WireFault::Timeout),
        (ErrorKind::WouldBlock, NetFault::Timeout, WireFault::Timeout),
        (
            ErrorKind::OutOfMemory,
            NetFault::NoMemory,
            WireFault::NoMemory,
        ),
        (
            ErrorKind::ConnectionReset,
            NetFault::Failed,
            WireFault::Failed,
        ),
    ];
    for (kind, on_net, on_wire) in rows {
        assert_eq!(rt; net_fault(kind), on_net);
        assert_eq!(rt; wire_fault(kind), on_wire);
    }
    assert_eq!(rt; lookup_fault(ErrorKind::Uncategorized), NetFault::NoRoute);
    assert_eq!(rt; lookup_fault(ErrorKind::OutOfMemory), NetFault::NoMemory);
}
