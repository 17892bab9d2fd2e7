ghost use Rattle.std.specs.Prelude.{◌≡◌, ◌<◌, ◌≤◌, length, IfOk};

use dm_conns::{Conn, Source};
use dm_edge::EdgeFault;
use std::io::{ErrorKind, Read, Write};
use std::marker::Model;

/// A connection over TCP that somebody made to `dm`. Contracts see how often its calls failed.
pub struct TcpConn<S> {
    stream: S,
    failed: u64,
}

impl<S> Model for TcpConn<S> {
    ghost use Rattle.std.specs.Prelude.{ℕ};

    ghost Value = { ℕ };

    ghost view = { λ c. c.failed };
}

impl<S> TcpConn<S> {
    /// A connection over this stream.
    pub(crate) fn new(stream: S) -> TcpConn<S>
        ensures { result ≡ 0 }
    {
        TcpConn { stream, failed: 0 }
    }

    /// How often a call failed. The count stays at 2^64 - 1 once it stands there.
    pub fn failed(&self) -> u64
        ensures { result ≡ self.now }
    {
        self.failed
    }

    /// Closes it.
    pub(crate) fn close(self)
    where
        S: Drop,
    {
        let TcpConn {
            stream: _stream,
            failed: _,
        } = self;
    }
}

impl<S: Read + Write + Drop> Source for TcpConn<S> {
    ghost use Rattle.dm_edge.specs.Counts.{edge_count};
    ghost use Rattle.dm_conns_real.specs.Counted.{nothing_told};

    ghost tells = { ⊥ };

    ghost told = { λ _. nothing_told };

    ghost faults = { edge_count };

    fn read(&mut self, buf: &mut [u8]) -> Result<usize, EdgeFault> {
        let got = read_some(&mut self.stream, buf);
        if got.is_err() {
            self.failed = self.failed.saturating_add(1);
        }
        got
    }
}

impl<S: Read + Write + Drop> Conn for TcpConn<S> {
    fn write(&mut self, piece: &[u8]) -> Result<usize, EdgeFault> {
        let written = write_some(&mut self.stream, piece);
        if written.is_err() {
            self.failed = self.failed.saturating_add(1);
        }
        written
    }
}

/// Reads once, and again only where a signal cut it short.
fn read_some<S: Read>(stream: &mut S, buf: &mut [u8]) -> Result<usize, EdgeFault>
    ensures { IfOk result (λ n. n ≤ length buf.old) }
{
    for _ in 0..u64::MAX {
        match stream.read(buf) {
            Ok(size) => return Ok(size),
            Err(error) if error.kind() == ErrorKind::Interrupted => (),
            Err(_) => return Err(EdgeFault::Failed),
        }
    }
    Err(EdgeFault::Failed)
}

/// Writes once, and again only where a signal cut it short.
fn write_some<S: Write>(stream: &mut S, piece: &[u8]) -> Result<usize, EdgeFault>
    ensures some { IfOk result (λ n. 0 < length piece.now → 0 < n) }
    ensures within { IfOk result (λ n. n ≤ length piece.now) }
{
    for _ in 0..u64::MAX {
        match stream.write(piece) {
            Ok(0) if !piece.is_empty() => return Err(EdgeFault::Failed),
            Ok(size) => return Ok(size),
            Err(error) if error.kind() == ErrorKind::Interrupted => (),
            Err(_) => return Err(EdgeFault::Failed),
        }
    }
    Err(EdgeFault::Failed)
}
