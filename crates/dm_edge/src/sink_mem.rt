ghost use Rattle.std.specs.Prelude.{◌≡◌, ◌<◌, ◌≤◌, ◌↔◌, ℕ, [], length, IsErr, IsTrue, IfOk, OnOk, OnErr, Contains};
ghost use Rattle.dm_types.specs.Faults.{HasCause};
ghost use Rattle.dm_edge.specs.Counts.{edge_count};
ghost use Rattle.dm_edge.specs.Faults.{edge_kind};
ghost use Rattle.dm_edge.specs.Sink.{Writes};
ghost use Rattle.dm_edge.specs.SinkMem.{MustFail, with_piece, failed_once};
ghost use Rattle.dm_edge.specs.declared.fault.EdgeFault.{EdgeFault as Fault};

use crate::{EdgeFault, Sink};
use dm_types::NoMemory;
use std::alloc::Global;
use std::marker::Model;

/// A sink in memory. A write that is listed or goes past its room fails and adds nothing, every
/// other one adds its whole piece.
#[derive(Debug, Drop)]
pub struct SinkMem {
    written: Vec<u8>,
    room: u64,
    failing: Vec<u64>,
    calls: u64,
    failed: u64,
}

impl Model for SinkMem {
    ghost use Rattle.std.specs.Prelude.{◌≤◌, vec_len, vec_capacity};
    ghost use Rattle.dm_edge.specs.SinkMem.{Held};

    ghost Value = { Held };

    ghost view = { λ s. record { written = s.written.items; room = s.room; failing = s.failing.items; calls = s.calls; failed = s.failed } };

    ghost invariant = { λ s. (vec_len s.written ≤ s.room) × (s.room ≤ vec_capacity s.written) };
}

/// Whether a number is in the list.
fn is_listed(numbers: &[u64], number: u64) -> bool
    ensures { IsTrue result ↔ Contains numbers.now number }
{
    numbers.contains(&number)
}

impl SinkMem {
    /// An empty sink with room for so many bytes, whose writes with these numbers, from 0, fail.
    pub fn new(alloc: Global, room: u64, failing: &[u64]) -> Result<SinkMem, NoMemory>
        ensures { IfOk result (λ sink. sink ≡ record { written = []; room = room; failing = failing.now; calls = 0; failed = 0 }) }
    {
        Ok(SinkMem {
            written: Vec::with_capacity(alloc, room as usize)?,
            room,
            failing: Vec::from_slice(alloc, failing)?,
            calls: 0,
            failed: 0,
        })
    }

    /// All that was written to it.
    pub fn written(&self) -> &[u8]
        ensures { result.now ≡ self.now.written }
    {
        &self.written
    }

    /// How many writes failed.
    pub fn failed(&self) -> u64
        ensures { result ≡ self.now.failed }
    {
        self.failed
    }
}

impl Sink for SinkMem {
    ghost tells = { Unit {0} };

    ghost written = { λ s. s.written };

    ghost faults = { λ s. edge_count s.failed };

    fn write(&mut self, piece: &[u8]) -> Result<usize, EdgeFault>
        ensures some { IfOk result (λ n. 0 < length piece.now → 0 < n) }
        ensures within { IfOk result (λ n. n ≤ length piece.now) }
        ensures written { Writes self.old.written self.new.written result piece.now }
        ensures cause { HasCause edge_kind (edge_count self.old.failed) (edge_count self.new.failed) result }
        ensures quiet { IfOk result (λ _. (kind : Fault) → edge_count self.new.failed kind ≡ edge_count self.old.failed kind) }

        // In memory the answer is determined.
        ensures fails { IsErr result ↔ MustFail self.old piece.now }
        ensures whole { IfOk result (λ n. n ≡ length piece.now) }
        ensures ok { OnOk result (self.new ≡ with_piece self.old piece.now) }
        ensures err { OnErr result (self.new ≡ failed_once self.old) }
    {
        let listed = is_listed(&self.failing, self.calls);
        self.calls = self.calls.saturating_add(1);
        let left = self.room - self.written.len() as u64;
        if listed || piece.len() as u64 > left || self.written.extend_from_slice(piece).is_err() {
            self.failed = self.failed.saturating_add(1);
            return Err(EdgeFault::Failed);
        }
        Ok(piece.len())
    }
}
