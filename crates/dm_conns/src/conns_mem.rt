ghost use Rattle.std.specs.Prelude.{◌≡◌, ◌↔◌, ℕ, IfOk, IsErr, OnErr, slice_get};
ghost use Rattle.std.specs.Option.{option_copied, option_map};
ghost use Rattle.dm_types.specs.Faults.{HasCause};
ghost use Rattle.dm_edge.specs.Counts.{edge_count, raised_by};
ghost use Rattle.dm_edge.specs.Faults.{edge_kind};
ghost use Rattle.dm_edge.specs.Wire.{IsFresh};
ghost use Rattle.dm_edge.specs.declared.fault.EdgeFault.{EdgeFault as Fault};
ghost use Rattle.dm_conns.specs.Memory.{AcceptFails, Accepts, failed_accept, fresh_conns, over_as, with_over};

use crate::calls::Calls;
use crate::chain::Chain;
pub use crate::chain::Served;
use crate::{ConnMem, Conns};
use dm_edge::EdgeFault;
use dm_types::{Listed, NoMemory};
use std::alloc::Global;
use std::collections::VecDeque;
use std::marker::Model;

/// Connections in the order in which they come.
pub type ConnMems = Listed<ConnMem>;

/// Connections in memory. Each accept that doesn't fail takes the next one, as it was made; one past the last fails.
#[derive(Debug, Drop)]
pub struct ConnsMem {
    coming: VecDeque<ConnMem>,
    calls: Calls,
    over: Chain,
    served: u64,
}

impl Model for ConnsMem {
    ghost use Rattle.std.specs.Prelude.{map};
    ghost use Rattle.dm_conns.specs.Memory.{ConnsState, over_as};

    ghost Value = { ConnsState };

    ghost view = { λ c. record { coming = c.coming.items; counting = c.calls; over = map over_as c.over; served = c.served } };
}

impl ConnsMem {
    /// These connections, where the accepts with these numbers, from 0, fail.
    pub fn new(alloc: Global, conns: ConnMems, failing: &[u64]) -> Result<ConnsMem, NoMemory>
        ensures { IfOk result (λ made. made ≡ fresh_conns conns failing.now) }
    {
        Ok(ConnsMem {
            coming: VecDeque::from_vec(conns.into_vec()),
            calls: Calls::new(alloc, failing)?,
            over: Chain::new(),
            served: 0,
        })
    }

    /// What went over a connection that was handed back, at its place from 0 in that order.
    pub fn over(&self, place: u64) -> Option<&Served>
        ensures { option_map over_as (option_copied result) ≡ slice_get self.now.over place }
    {
        self.over.at(place).ok()
    }

    /// How many connections were handed back.
    pub fn served(&self) -> u64
        ensures { result ≡ self.now.served }
    {
        self.served
    }

    /// How many accepts failed.
    pub fn failed(&self) -> u64
        ensures { result ≡ self.now.counting.failed }
    {
        self.calls.failed()
    }
}

impl Conns for ConnsMem {
    type X = ConnMem;

    ghost tells = { Unit {0} };

    ghost over = { λ c. c.over };

    ghost served = { λ c. c.served };

    ghost faults = { λ c. edge_count c.counting.failed };

    ghost conns_tell = { λ _. tt };

    fn accept(&mut self) -> Result<ConnMem, EdgeFault>
        ensures fresh { IfOk result (λ conn. IsFresh conn.told) }
        ensures unfailed { IfOk result (λ conn. (kind : Fault) → edge_count conn.counting.failed kind ≡ 0) }
        ensures over { self.new.over ≡ self.old.over }
        ensures served { self.new.served ≡ self.old.served }
        ensures cause { HasCause edge_kind (edge_count self.old.counting.failed) (edge_count self.new.counting.failed) result }
        ensures quiet { IfOk result (λ _. (kind : Fault) → edge_count self.new.counting.failed kind ≡ edge_count self.old.counting.failed kind) }

        // In memory the answer is determined.
        ensures fails { IsErr result ↔ AcceptFails self.old }
        ensures ok { IfOk result (Accepts self.old self.new) }
        ensures err { OnErr result (self.new ≡ failed_accept self.old) }
    {
        if self.calls.is_listed() {
            self.calls.fail();
            return Err(EdgeFault::Failed);
        }
        match self.coming.pop_front() {
            Some(conn) => {
                self.calls.make();
                Ok(conn.renewed())
            }
            None => {
                self.calls.fail();
                Err(EdgeFault::Failed)
            }
        }
    }

    fn done(&mut self, conn: ConnMem)
        ensures over { self.new ≡ with_over self.old conn }
        ensures served { self.new.served ≡ raised_by 1 self.old.served }
        ensures faults { (kind : Fault) → edge_count self.new.counting.failed kind ≡ edge_count self.old.counting.failed kind }
    {
        let (served, spare) = conn.into_over();
        self.over.push(served, spare);
        self.served = self.served.saturating_add(1);
    }
}
