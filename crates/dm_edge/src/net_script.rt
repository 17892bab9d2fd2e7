ghost use Rattle.std.specs.Prelude.{◌≡◌, ◌≢◌, ◌<◌, ℕ, [], length, All, IfOk, IfErr, slice_get, map};
ghost use Rattle.std.specs.Option.{option_copied, option_map};
ghost use Rattle.dm_types.specs.Faults.{HasCause, NoneFell, Rose};
ghost use Rattle.dm_edge.specs.Counts.{net_count, wire_count};
ghost use Rattle.dm_edge.specs.Faults.{net_kind, net_count_of};
ghost use Rattle.dm_edge.specs.Script.{IsGood, fresh_net, Connects, ConnectFails, failed_connect, with_closed, closed_as};
ghost use Rattle.dm_edge.specs.Wire.{IsFresh};
ghost use Rattle.dm_edge.specs.declared.fault.WireFault.{WireFault as OnWire};

use crate::chain::Chain;
use crate::script::listed_fault;
use crate::{
    EveryByte, Exchange, Net, NetCounts, NetFails, NetFault, WireCounts, WireMem, WireScript,
    WireScripts,
};
use dm_types::{Address, Attempt, ItemId, NoMemory, Text};
use std::alloc::Global;
use std::collections::VecDeque;
use std::marker::Model;

/// A net in memory. Each connect that doesn't fail takes the next of its scripts, whatever it is
/// connected to.
#[derive(Debug, Drop)]
pub struct NetScript {
    coming: VecDeque<WireScript>,
    failing: NetFails,
    calls: u64,
    closed: Chain,
    counts: NetCounts,
}

impl Model for NetScript {
    ghost use Rattle.std.specs.Prelude.{map};
    ghost use Rattle.dm_edge.specs.Script.{NetState, IsGoodNet, closed_as};

    ghost Value = { NetState };

    ghost view = { λ n. record { coming = n.coming.items; failing = n.failing; calls = n.calls; closed = map closed_as n.closed; counts = n.counts } };

    ghost invariant = { λ n. IsGoodNet n.coming.items n.failing };
}

impl From<NoMemory> for NetFault {
    ghost use Rattle.std.specs.Prelude.{◌≡◌};
    ghost use Rattle.dm_edge.specs.declared.fault.NetFault.TheVariants as faults;

    ghost from_gives = { λ _ fault. fault ≡ faults.NoMemory };

    fn from(_: NoMemory) -> NetFault {
        NetFault::NoMemory
    }
}

impl NetScript {
    /// A net with these wires, whose listed connects fail. The lists are taken over, so no memory
    /// is wanting here, only in `connect`.
    pub fn new(wires: WireScripts, failing: NetFails) -> Result<NetScript, NoMemory>
        requires scripts { All IsGood wires }
        requires faults { All (λ entry. entry.1 ≢ NetFault.NoMemory) failing }
        ensures { result ≡ Ok (fresh_net wires failing) }
    {
        Ok(NetScript {
            coming: VecDeque::from_vec(wires.into_vec()),
            failing,
            calls: 0,
            closed: Chain::new(),
            counts: NetCounts::NONE,
        })
    }

    /// What went over a wire that is closed, at its place from 0 in the order of closing.
    pub fn closed(&self, place: u64) -> Option<&Exchange>
        ensures { option_map closed_as (option_copied result) ≡ slice_get self.now.closed place }
    {
        self.closed.at(place).ok()
    }

    /// Counts a connect that failed, and gives its fault back.
    fn fail(&mut self, fault: NetFault) -> NetFault
        ensures fault { result ≡ fault }
        ensures counted { self.new ≡ failed_connect fault self.old }
        ensures cause { HasCause {T = Unit {0}} net_kind (net_count self.old.counts) (net_count self.new.counts) (Err fault) }
    {
        self.calls = self.calls.saturating_add(1);
        self.counts.raise(fault);
        fault
    }

    /// How often the calls failed, those of the closed wires among them.
    pub fn counts(&self) -> NetCounts
        ensures { result ≡ self.now.counts }
    {
        self.counts
    }
}

impl Net for NetScript {
    type O = EveryByte;

    type W = WireMem;

    ghost tells = { Unit {0} };

    ghost origin_of = { λ _. record {} };

    ghost closed = { λ n. n.closed };

    ghost faults = { λ n. net_count n.counts };

    ghost wires_tell = { λ _. tt };

    fn origin(&self) -> EveryByte {
        EveryByte
    }

    fn connect(
        &mut self,
        alloc: Global,
        address: &Address,
        id: ItemId,
        attempt: Attempt,
    ) -> Result<WireMem, NetFault>
        ensures fresh { IfOk result (λ wire. IsFresh wire.told) }
        ensures purpose { IfOk result (λ wire. wire.purpose ≡ record { address = address.now; id = id; attempt = attempt }) }
        ensures unfailed { IfOk result (λ wire. (kind : OnWire) → wire_count wire.counts kind ≡ 0) }
        ensures closed { self.new.closed ≡ self.old.closed }
        ensures cause { HasCause net_kind (net_count self.old.counts) (net_count self.new.counts) result }

        // In memory the answer is determined, but for want of memory.
        ensures ok { IfOk result (Connects self.old self.new (record { address = address.now; id = id; attempt = attempt })) }
        ensures err { IfErr result (ConnectFails self.old self.new) }
    {
        if let Some(fault) = listed_fault(self.failing.items(), self.calls) {
            return Err(self.fail(fault));
        }
        if self.coming.is_empty() {
            return Err(self.fail(NetFault::NoRoute));
        }
        let address = address.copy(alloc)?;
        let Ok(spare) = Box::new(alloc, Chain::new()) else {
            return Err(NetFault::NoMemory);
        };
        let sent = Text::new(alloc);
        let Some(script) = self.coming.pop_front() else {
            return Err(self.fail(NetFault::NoRoute));
        };
        self.calls = self.calls.saturating_add(1);
        Ok(WireMem {
            exchange: Exchange {
                address,
                id,
                attempt,
                sent,
                stream: script.stream,
            },
            given: 0,
            cuts: script.cuts,
            failing: script.failing,
            calls: 0,
            receives: 0,
            counts: WireCounts::NONE,
            wants: 0,
            spare,
        })
    }

    fn close(&mut self, wire: WireMem)
        ensures closed { self.new ≡ with_closed self.old wire }
        ensures later { NoneFell (net_count self.old.counts) (net_count self.new.counts) }
        ensures counted { (kind : OnWire) → 0 < wire_count wire.counts kind
            → Rose (net_count self.old.counts (net_count_of kind)) (net_count self.new.counts (net_count_of kind)) }
    {
        let WireMem {
            exchange,
            given: _,
            cuts: _cuts,
            failing: _failing,
            calls: _,
            receives: _,
            counts,
            wants: _,
            spare,
        } = wire;
        self.closed.push(exchange, spare);
        self.counts.join(counts);
    }
}
