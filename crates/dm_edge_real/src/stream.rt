ghost use Rattle.std.specs.Prelude.{◌≡◌, ◌<◌, ◌≤◌, length, IfOk};

use dm_edge::{EdgeFault, Sink};
use std::io::{ErrorKind, Write};
use std::marker::Model;

/// A stream of the system as a sink: standard output, standard error. Nothing is held back in a
/// buffer. Contracts see how often a write failed.
#[derive(Drop)]
pub struct StreamSink<W> {
    stream: W,
    failed: u64,
}

impl<W> Model for StreamSink<W> {
    ghost use Rattle.std.specs.Prelude.{ℕ};

    ghost Value = { ℕ };

    ghost view = { λ s. s.failed };
}

impl<W: Write> StreamSink<W> {
    /// A sink that writes to this stream.
    pub fn new(stream: W) -> StreamSink<W>
        ensures { result ≡ 0 }
    {
        StreamSink { stream, failed: 0 }
    }

    /// How often a write failed. The count stays at 2^64 - 1 once it stands there.
    pub fn failed(&self) -> u64
        ensures { result ≡ self.now }
    {
        self.failed
    }
}

impl<W: Write> Sink for StreamSink<W> {
    ghost use Rattle.std.specs.Prelude.{[]};
    ghost use Rattle.dm_edge.specs.Counts.{edge_count};

    ghost tells = { ⊥ };

    ghost written = { λ _. [] };

    ghost faults = { edge_count };

    fn write(&mut self, piece: &[u8]) -> Result<usize, EdgeFault> {
        let written = write_some(&mut self.stream, piece);
        if written.is_err() {
            self.failed = self.failed.saturating_add(1);
        }
        written
    }
}

/// Writes once, and again only where a signal cut it short.
fn write_some<W: Write>(stream: &mut W, piece: &[u8]) -> Result<usize, EdgeFault>
    ensures some { IfOk result (λ n. 0 < length piece.now → 0 < n) }
    ensures within { IfOk result (λ n. n ≤ length piece.now) }
{
    for _ in 0..u64::MAX {
        match stream.write(piece) {
            Ok(0) if !piece.is_empty() => return Err(EdgeFault::Failed),
            Ok(size) => return Ok(size),
            Err(error) if error.kind() == ErrorKind::Interrupted => (),
            Err(_) => return Err(EdgeFault::Failed),
        }
    }
    Err(EdgeFault::Failed)
}
