ghost use Rattle.std.specs.Prelude.{◌≡◌, ◌≤◌, ◌<◌, ◌^◌, length, IfOk, Err};
ghost use Rattle.dm_types.specs.Faults.{HasCause};
ghost use Rattle.dm_edge.specs.Counts.{wire_count};
ghost use Rattle.dm_edge.specs.Faults.{wire_kind};
ghost use Rattle.dm_edge.specs.Wire.{WantsBy};

use crate::faults::{lookup_fault, net_fault, wire_fault};
use dm_edge::{EveryByte, Net, NetCounts, NetFault, Wire, WireCounts, WireFault};
use dm_types::{Address, Attempt, ItemId};
use std::alloc::Global;
use std::io::{ErrorKind, Read, Write};
use std::marker::Model;
use std::net;
use std::net::{Ipv4Addr, OpenStream, SocketAddr};
use std::time::Duration;

/// How long a connect, a send and a receive wait at most, in seconds.
const PATIENCE: u64 = 30;

/// The most addresses of one host that are tried.
const MOST_ADDRESSES: usize = 32;

/// A connection over TCP. Contracts see how often its calls failed, and how often memory was
/// wanting.
pub struct TcpWire<S> {
    stream: S,
    counts: WireCounts,
    wants: u64,
}

impl<S> Model for TcpWire<S> {
    ghost use Rattle.dm_edge_real.specs.Untold.{Failures};

    ghost Value = { Failures };

    ghost view = { λ w. record { counts = w.counts; wants = w.wants } };
}

impl<S> TcpWire<S> {
    /// Counts a fault by its kind, or that memory was wanting.
    fn count(&mut self, fault: WireFault)
        ensures cause { HasCause {T = Unit {0}} wire_kind (wire_count self.old.counts) (wire_count self.new.counts) (Err fault) }
        ensures wants { WantsBy {T = Unit {0}} self.old.wants self.new.wants (Err fault) }
    {
        match fault {
            WireFault::NoMemory => self.wants = self.wants.saturating_add(1),
            _ => self.counts.raise(fault),
        }
    }
}

impl<S: Read + Write + Drop> Wire for TcpWire<S> {
    ghost use Rattle.dm_edge_real.specs.Untold.{no_purpose, nothing_told};

    type O = EveryByte;

    ghost tells = { ⊥ };

    ghost origin = { λ _. record {} };

    ghost purpose = { λ _. no_purpose };

    ghost told = { λ _. nothing_told };

    ghost faults = { λ w. wire_count w.counts };

    ghost wants = { λ w. w.wants };

    ghost use Rattle.std.proofs.Common.{inl};

    ghost honest = { λ _. inl (λ _ _ _ _. tt) };

    fn send(&mut self, piece: &[u8]) -> Result<(), WireFault> {
        let sent = send_all(&mut self.stream, piece);
        if let Err(fault) = sent {
            self.count(fault);
        }
        sent
    }

    fn receive(&mut self, buf: &mut [u8]) -> Result<usize, WireFault> {
        let got = receive_some(&mut self.stream, buf);
        if let Err(fault) = got {
            self.count(fault);
        }
        got
    }
}

/// Writes the whole piece, in as many parts as the system takes it.
pub(crate) fn send_all<S: Write>(stream: &mut S, piece: &[u8]) -> Result<(), WireFault> {
    let mut rest = piece;
    for _ in 0..u64::MAX {
        if rest.is_empty() {
            return Ok(());
        }
        match stream.write(rest) {
            Ok(0) => return Err(WireFault::Failed),
            Ok(size) => rest = &rest[size..],
            Err(error) if error.kind() == ErrorKind::Interrupted => (),
            Err(error) => return Err(wire_fault(error.kind())),
        }
    }
    Err(WireFault::Failed)
}

/// Reads once into the buffer, and again only where a signal cut it short.
fn receive_some<S: Read>(stream: &mut S, buf: &mut [u8]) -> Result<usize, WireFault>
    ensures { IfOk result (λ n. n ≤ length buf.old) }
{
    for _ in 0..u64::MAX {
        match stream.read(buf) {
            Ok(size) => return Ok(size),
            Err(error) if error.kind() == ErrorKind::Interrupted => (),
            Err(error) => return Err(wire_fault(error.kind())),
        }
    }
    Err(WireFault::Failed)
}

/// The net over TCP of a runtime. Contracts see how often its calls failed.
#[derive(Drop)]
pub struct TcpNet<R> {
    system: R,
    counts: NetCounts,
}

impl<R> Model for TcpNet<R> {
    ghost use Rattle.dm_edge.specs.declared.counts.NetCounts.{NetCounts};

    ghost Value = { NetCounts };

    ghost view = { λ n. n.counts };
}

impl<R: net::Net> TcpNet<R> {
    /// A net over this runtime's sockets.
    pub fn new(system: R) -> TcpNet<R>
        ensures { result ≡ record { no_route = 0; refused = 0; timeout = 0; failed = 0 } }
    {
        TcpNet {
            system,
            counts: NetCounts::NONE,
        }
    }

    /// How often the calls failed, those of the closed wires among them.
    pub fn counts(&self) -> NetCounts
        ensures { result ≡ self.now }
    {
        self.counts
    }
}

impl<R: net::Net> Net for TcpNet<R> {
    ghost use Rattle.std.specs.Prelude.{[]};
    ghost use Rattle.dm_edge.specs.Counts.{net_count};

    type O = EveryByte;

    type W = TcpWire<R::Stream>;

    ghost tells = { ⊥ };

    ghost origin_of = { λ _. record {} };

    ghost closed = { λ _. [] };

    ghost faults = { net_count };

    ghost wires_tell = { λ told. told };

    fn origin(&self) -> EveryByte {
        EveryByte
    }

    fn connect(
        &mut self,
        _alloc: Global,
        address: &Address,
        _id: ItemId,
        _attempt: Attempt,
    ) -> Result<TcpWire<R::Stream>, NetFault> {
        match reach(&self.system, host_name(address.host.bytes()), address.port) {
            Ok(stream) => Ok(TcpWire {
                stream,
                counts: WireCounts::NONE,
                wants: 0,
            }),
            Err(fault) => {
                self.counts.raise(fault);
                Err(fault)
            }
        }
    }

    fn close(&mut self, wire: TcpWire<R::Stream>) {
        let TcpWire {
            stream: _stream,
            counts,
            wants: _,
        } = wire;
        self.counts.join(counts);
    }
}

/// A host's name for the system, which writes an IPv6 address without brackets.
fn host_name(host: &[u8]) -> &[u8] {
    match host {
        [b'[', inner @ .., b']'] => inner,
        _ => host,
    }
}

/// Connects to the first of a host's addresses that answers.
fn reach<R: net::Net>(system: &R, host: &[u8], port: u16) -> Result<R::Stream, NetFault> {
    let Ok(host) = str::from_utf8(host) else {
        return Err(NetFault::NoRoute);
    };
    let mut found = [SocketAddr::from((Ipv4Addr::UNSPECIFIED, port)); MOST_ADDRESSES];
    match system.lookup_host(host, port, &mut found) {
        Ok(count) => first_of(system, &found[..count]),
        Err(error) => Err(lookup_fault(error.kind())),
    }
}

/// Tries each address in turn. They share the time, and the last one's fault is answered.
fn first_of<R: net::Net>(system: &R, addresses: &[SocketAddr]) -> Result<R::Stream, NetFault>
    requires { length addresses.now < 2 ^ 32 }
{
    let share = Duration::from_secs(PATIENCE) / (addresses.len() as u32).max(1);
    let mut last = NetFault::NoRoute;
    for address in addresses {
        match connect_to(system, *address, share) {
            Ok(stream) => return Ok(stream),
            Err(fault) => last = fault,
        }
    }
    Err(last)
}

/// Connects to one address, and sets how long the stream's calls may wait.
fn connect_to<R: net::Net>(
    system: &R,
    address: SocketAddr,
    wait: Duration,
) -> Result<R::Stream, NetFault> {
    let stream = match system.connect_timeout(address, wait) {
        Ok(stream) => stream,
        Err(error) => return Err(net_fault(error.kind())),
    };
    let patience = Some(Duration::from_secs(PATIENCE));
    if let Err(error) = stream.set_read_timeout(patience) {
        return Err(net_fault(error.kind()));
    }
    match stream.set_write_timeout(patience) {
        Ok(()) => Ok(stream),
        Err(error) => Err(net_fault(error.kind())),
    }
}
