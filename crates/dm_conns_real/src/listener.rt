ghost use Rattle.std.specs.Prelude.{◌≡◌};

use crate::TcpConn;
use dm_conns::Conns;
use dm_edge::EdgeFault;
use std::io::{ErrorKind, Read, Write};
use std::marker::Model;
use std::net::{Ipv4Addr, OpenListener, OpenStream, SocketAddr};
use std::time::Duration;
use std::{io, net};

/// How long a read and a write wait at most, in seconds.
const PATIENCE: u64 = 30;

/// A listener on 127.0.0.1. It takes one connection after another. Contracts see how many were handed
/// back, and how often an accept failed.
#[derive(Drop)]
pub struct TcpConns<L> {
    listener: L,
    served: u64,
    failed: u64,
}

impl<L> Model for TcpConns<L> {
    ghost use Rattle.dm_conns_real.specs.Counted.{Counted};

    ghost Value = { Counted };

    ghost view = { λ c. record { served = c.served; failed = c.failed } };
}

impl<L> TcpConns<L> {
    /// How many connections were handed back.
    pub fn served(&self) -> u64
        ensures { result ≡ self.now.served }
    {
        self.served
    }

    /// How often an accept failed.
    pub fn failed(&self) -> u64
        ensures { result ≡ self.now.failed }
    {
        self.failed
    }
}

impl<L: OpenListener + Drop> TcpConns<L> {
    /// A listener on this port of 127.0.0.1, or on a free one where it is 0.
    pub fn open<R: net::Net<Listener = L>>(system: &R, port: u16) -> io::Result<TcpConns<L>> {
        let listener = system.bind(SocketAddr::from((Ipv4Addr::LOCALHOST, port)))?;
        Ok(TcpConns {
            listener,
            served: 0,
            failed: 0,
        })
    }

    /// The address that it listens on.
    pub fn local_addr(&self) -> io::Result<SocketAddr> {
        self.listener.local_addr()
    }
}

impl<L> Conns for TcpConns<L>
where
    L: OpenListener + Drop,
    L::Stream: Read + Write + OpenStream + Drop,
{
    ghost use Rattle.std.specs.Prelude.{[]};
    ghost use Rattle.dm_edge.specs.Counts.{edge_count};

    type X = TcpConn<L::Stream>;

    ghost tells = { ⊥ };

    ghost over = { λ _. [] };

    ghost served = { λ c. c.served };

    ghost faults = { λ c. edge_count c.failed };

    ghost conns_tell = { λ told. told };

    fn accept(&mut self) -> Result<TcpConn<L::Stream>, EdgeFault> {
        match accept_some(&self.listener) {
            Ok(stream) => Ok(TcpConn::new(stream)),
            Err(fault) => {
                self.failed = self.failed.saturating_add(1);
                Err(fault)
            }
        }
    }

    fn done(&mut self, conn: TcpConn<L::Stream>) {
        conn.close();
        self.served = self.served.saturating_add(1);
    }
}

/// Takes the next connection that can be served. One that is gone before it is taken, and a wait that a
/// signal cut short, are passed over.
fn accept_some<L>(listener: &L) -> Result<L::Stream, EdgeFault>
where
    L: OpenListener,
    L::Stream: OpenStream + Drop,
{
    for _ in 0..u64::MAX {
        match listener.accept() {
            Ok((stream, _)) => {
                if is_patient(&stream) {
                    return Ok(stream);
                }
            }
            Err(error) => match error.kind() {
                ErrorKind::Interrupted | ErrorKind::ConnectionAborted => (),
                _ => return Err(EdgeFault::Failed),
            },
        }
    }
    Err(EdgeFault::Failed)
}

/// Sets how long the stream's calls may wait, and says whether that went well.
fn is_patient<S: OpenStream>(stream: &S) -> bool {
    let patience = Some(Duration::from_secs(PATIENCE));
    stream.set_read_timeout(patience).is_ok() && stream.set_write_timeout(patience).is_ok()
}
