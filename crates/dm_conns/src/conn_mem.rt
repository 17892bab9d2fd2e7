ghost use Rattle.std.specs.Prelude.{◌≡◌, ◌↔◌, ◌<◌, ◌≤◌, length, IfOk, IsErr, OnOk, OnErr};
ghost use Rattle.dm_types.specs.Faults.{HasCause};
ghost use Rattle.dm_edge.specs.Counts.{edge_count};
ghost use Rattle.dm_edge.specs.Faults.{edge_kind};
ghost use Rattle.dm_conns.specs.Conn.{Puts, Reads};
ghost use Rattle.dm_conns.specs.Memory.{GivesNext, IsListed, MustFail, fails_once, fresh, over_as, over_by, renewed, with_piece};

use crate::calls::Calls;
use crate::chain::{Chain, Served};
use crate::feed::feed;
use crate::{Conn, Source};
use dm_edge::EdgeFault;
use dm_types::{NoMemory, Text};
use std::alloc::Global;
use std::marker::Model;

/// A connection in memory. A call that is listed fails and does nothing, as a write does past its
/// room; every other read fills the buffer as far as bytes are left, and every other write writes
/// its whole piece.
#[derive(Debug, Drop)]
pub struct ConnMem {
    served: Served,
    /// How many bytes of the stream were read.
    given: usize,
    room: u64,
    calls: Calls,
    /// The room in which what accepted it keeps it, once it is over.
    spare: Box<Chain>,
}

impl Model for ConnMem {
    ghost use Rattle.std.specs.Prelude.{take, drop, vec_len, vec_capacity};
    ghost use Rattle.dm_conns.specs.Memory.{ConnState, IsKept};

    ghost Value = { ConnState };

    ghost view = { λ c. record {
      told = record { given = take c.given c.served.stream; left = drop c.given c.served.stream; sent = c.served.written.items };
      room = c.room;
      counting = c.calls;
    } };

    ghost invariant = { λ c. IsKept c.given c.served.stream (vec_len c.served.written) c.room (vec_capacity c.served.written) };
}

impl ConnMem {
    /// A connection that gives this stream and has room for so many bytes of an answer, whose calls
    /// with these numbers, from 0, fail. Reads and writes are numbered together.
    pub fn new(
        alloc: Global,
        stream: &[u8],
        room: u64,
        failing: &[u64],
    ) -> Result<ConnMem, NoMemory>
        ensures { IfOk result (λ conn. conn ≡ fresh stream.now room failing.now) }
    {
        let served = Served {
            stream: Text::from_bytes(alloc, stream)?,
            written: Vec::with_capacity(alloc, room as usize)?,
            failed: 0,
        };
        let calls = Calls::new(alloc, failing)?;
        match Box::new(alloc, Chain::new()) {
            Ok(spare) => Ok(ConnMem {
                served,
                given: 0,
                room,
                calls,
                spare,
            }),
            Err(_) => Err(NoMemory),
        }
    }

    /// The connection as it was made.
    pub(crate) fn renewed(mut self) -> ConnMem
        ensures { result ≡ renewed self }
    {
        self.served.written.clear();
        self.given = 0;
        self.calls.renew();
        self
    }

    /// What went over it, and the room in which that is kept.
    pub(crate) fn into_over(self) -> (Served, Box<Chain>)
        ensures { over_as result.0 ≡ over_by self }
    {
        let ConnMem {
            mut served,
            spare,
            calls,
            ..
        } = self;
        served.failed = calls.failed();
        (served, spare)
    }

    /// What was written to it.
    pub fn written(&self) -> &[u8]
        ensures { result.now ≡ self.now.told.sent }
    {
        &self.served.written
    }

    /// How many calls failed.
    pub fn failed(&self) -> u64
        ensures { result ≡ self.now.counting.failed }
    {
        self.calls.failed()
    }
}

impl Source for ConnMem {
    ghost tells = { Unit {0} };

    ghost told = { λ c. c.told };

    ghost faults = { λ c. edge_count c.counting.failed };

    fn read(&mut self, buf: &mut [u8]) -> Result<usize, EdgeFault>
        ensures within { IfOk result (λ n. n ≤ length buf.old) }
        ensures given { Reads self.old.told self.new.told result buf.new }
        ensures cause { HasCause edge_kind (edge_count self.old.counting.failed) (edge_count self.new.counting.failed) result }

        // In memory the answer is determined.
        ensures fails { IsErr result ↔ IsListed self.old.counting }
        ensures ok { IfOk result (λ n. GivesNext self.old self.new n buf.new) }
        ensures err { OnErr result (self.new ≡ fails_once self.old) }
    {
        if self.calls.is_listed() {
            self.calls.fail();
            return Err(EdgeFault::Failed);
        }
        self.calls.make();
        let size = feed(self.served.stream.bytes(), self.given, buf);
        self.given += size;
        Ok(size)
    }
}

impl Conn for ConnMem {
    fn write(&mut self, piece: &[u8]) -> Result<usize, EdgeFault>
        ensures some { IfOk result (λ n. 0 < length piece.now → 0 < n) }
        ensures within { IfOk result (λ n. n ≤ length piece.now) }
        ensures sent { Puts self.old.told self.new.told result piece.now }
        ensures cause { HasCause edge_kind (edge_count self.old.counting.failed) (edge_count self.new.counting.failed) result }

        // In memory the answer is determined.
        ensures fails { IsErr result ↔ MustFail self.old piece.now }
        ensures whole { IfOk result (λ n. n ≡ length piece.now) }
        ensures ok { OnOk result (self.new ≡ with_piece self.old piece.now) }
        ensures err { OnErr result (self.new ≡ fails_once self.old) }
    {
        let listed = self.calls.is_listed();
        let left = self.room - self.served.written.len() as u64;
        if listed
            || piece.len() as u64 > left
            || self.served.written.extend_from_slice(piece).is_err()
        {
            self.calls.fail();
            return Err(EdgeFault::Failed);
        }
        self.calls.make();
        Ok(piece.len())
    }
}
