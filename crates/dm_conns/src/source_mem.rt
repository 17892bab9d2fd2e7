ghost use Rattle.std.specs.Prelude.{◌≡◌, ◌↔◌, ◌≤◌, length, IfOk, IsErr, OnErr};
ghost use Rattle.dm_types.specs.Faults.{HasCause};
ghost use Rattle.dm_edge.specs.Counts.{edge_count};
ghost use Rattle.dm_edge.specs.Faults.{edge_kind};
ghost use Rattle.dm_conns.specs.Conn.{Reads};
ghost use Rattle.dm_conns.specs.Memory.{GivesNext, IsListed, fails_once, fresh};

use crate::{ConnMem, Source};
use dm_edge::EdgeFault;
use dm_types::NoMemory;
use std::alloc::Global;
use std::marker::Model;

/// A source in memory. A read that is listed fails and gives nothing, every other one fills the
/// buffer as far as bytes are left.
#[derive(Debug, Drop)]
pub struct SourceMem {
    conn: ConnMem,
}

impl Model for SourceMem {
    ghost use Rattle.dm_conns.specs.Memory.{ConnState};

    ghost Value = { ConnState };

    ghost view = { λ s. s.conn };
}

impl SourceMem {
    /// A source of these bytes, whose reads with these numbers, from 0, fail.
    pub fn new(alloc: Global, bytes: &[u8], failing: &[u64]) -> Result<SourceMem, NoMemory>
        ensures { IfOk result (λ source. source ≡ fresh bytes.now 0 failing.now) }
    {
        Ok(SourceMem {
            conn: ConnMem::new(alloc, bytes, 0, failing)?,
        })
    }

    /// How many reads failed.
    pub fn failed(&self) -> u64
        ensures { result ≡ self.now.counting.failed }
    {
        self.conn.failed()
    }
}

impl Source for SourceMem {
    ghost tells = { Unit {0} };

    ghost told = { λ s. s.told };

    ghost faults = { λ s. edge_count s.counting.failed };

    fn read(&mut self, buf: &mut [u8]) -> Result<usize, EdgeFault>
        ensures within { IfOk result (λ n. n ≤ length buf.old) }
        ensures given { Reads self.old.told self.new.told result buf.new }
        ensures cause { HasCause edge_kind (edge_count self.old.counting.failed) (edge_count self.new.counting.failed) result }

        // In memory the answer is determined.
        ensures fails { IsErr result ↔ IsListed self.old.counting }
        ensures ok { IfOk result (λ n. GivesNext self.old self.new n buf.new) }
        ensures err { OnErr result (self.new ≡ fails_once self.old) }
    {
        self.conn.read(buf)
    }
}
