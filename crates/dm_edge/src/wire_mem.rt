ghost use Rattle.std.specs.Prelude.{◌≡◌, ◌+◌, ◌^◌, ◌<◌, ◌≤◌, length, min, take, drop, IfOk, IfErr, OnOk};
ghost use Rattle.std.specs.Option.{option_map_or};
ghost use Rattle.dm_types.specs.Faults.{HasCause};
ghost use Rattle.dm_edge.specs.Counts.{wire_count};
ghost use Rattle.dm_edge.specs.Faults.{wire_kind};
ghost use Rattle.dm_edge.specs.Script.{SendsAll, SendFails, GivesNext, ReceiveFails};
ghost use Rattle.dm_edge.specs.Wire.{Sends, Receives, WantsBy};

use crate::chain::Chain;
use crate::script::listed_fault;
use crate::{EveryByte, Exchange, Wire, WireCounts, WireFails, WireFault};
use dm_types::{NumberList, Text};
use std::marker::Model;

/// A wire of a `NetScript`: it says its script's stream, however it is asked.
#[derive(Debug)]
pub struct WireMem {
    pub(crate) exchange: Exchange,
    /// How many bytes of the stream were received.
    pub(crate) given: usize,
    pub(crate) cuts: NumberList,
    pub(crate) failing: WireFails,
    pub(crate) calls: u64,
    pub(crate) receives: u64,
    pub(crate) counts: WireCounts,
    /// How often memory was wanting.
    pub(crate) wants: u64,
    /// The room in which its net keeps the exchange, once the wire is closed.
    pub(crate) spare: Box<Chain>,
}

impl Model for WireMem {
    ghost use Rattle.std.specs.Prelude.{◌≤◌, ◌<◌, ◌≢◌, take, drop, length, All};
    ghost use Rattle.dm_edge.specs.Script.{WireState, IsGoodWire};

    ghost Value = { WireState };

    ghost view = { λ w. record {
      purpose = record { address = w.exchange.address; id = w.exchange.id; attempt = w.exchange.attempt };
      told = record { given = take w.given w.exchange.stream; left = drop w.given w.exchange.stream; sent = w.exchange.sent };
      cuts = w.cuts;
      failing = w.failing;
      calls = w.calls;
      receives = w.receives;
      counts = w.counts;
      wants = w.wants;
    } };

    ghost invariant = { λ w. IsGoodWire w.given w.exchange.stream w.cuts w.failing };
}

/// How many bytes a receive gives at most, by its cut and the buffer's room.
fn allowed(cut: Option<u64>, room: usize) -> usize
    ensures most { result ≡ option_map_or (min room) cut room }
    ensures fits { result ≤ room }
{
    match cut {
        Some(cut) => room.min(cut as usize),
        None => room,
    }
}

/// What is left of a stream.
fn left_of(stream: &Text, given: usize) -> &[u8]
    requires { given ≤ length stream.now }
    ensures left { result.now ≡ drop given stream.now }
    ensures fits { given + length result.now < 2 ^ 64 }
{
    &stream.bytes()[given..]
}

/// Copies the first bytes to the buffer's front, and says how many.
fn give(left: &[u8], most: usize, buf: &mut [u8]) -> usize
    requires { most ≤ length buf.old }
    ensures size { result ≡ min most (length left.now) }
    ensures bytes { take result buf.new ≡ take result left.now }
{
    let size = most.min(left.len());
    buf[..size].copy_from_slice(&left[..size]);
    size
}

impl Wire for WireMem {
    type O = EveryByte;

    ghost tells = { Unit {0} };

    ghost origin = { λ _. record {} };

    ghost purpose = { λ w. w.purpose };

    ghost told = { λ w. w.told };

    ghost faults = { λ w. wire_count w.counts };

    ghost wants = { λ w. w.wants };

    ghost use Rattle.std.proofs.Common.{inl};

    ghost honest = { λ _. inl (λ _ _ _ _. tt) };

    fn send(&mut self, piece: &[u8]) -> Result<(), WireFault>
        ensures sent { Sends self.old.told self.new.told result piece.now }
        ensures stays { self.new.purpose ≡ self.old.purpose }
        ensures cause { HasCause wire_kind (wire_count self.old.counts) (wire_count self.new.counts) result }
        ensures wants { WantsBy self.old.wants self.new.wants result }

        // In memory the answer is determined, but for want of memory.
        ensures ok { OnOk result (SendsAll self.old self.new piece.now) }
        ensures err { IfErr result (SendFails self.old self.new) }
    {
        if let Some(fault) = listed_fault(self.failing.items(), self.calls) {
            self.calls = self.calls.saturating_add(1);
            self.counts.raise(fault);
            return Err(fault);
        }
        if self.exchange.sent.push_bytes(piece).is_err() {
            self.wants = self.wants.saturating_add(1);
            return Err(WireFault::NoMemory);
        }
        self.calls = self.calls.saturating_add(1);
        Ok(())
    }

    fn receive(&mut self, buf: &mut [u8]) -> Result<usize, WireFault>
        ensures within { IfOk result (λ n. n ≤ length buf.old) }
        ensures given { Receives self.old.told self.new.told result buf.new }
        ensures stays { self.new.purpose ≡ self.old.purpose }
        ensures cause { HasCause wire_kind (wire_count self.old.counts) (wire_count self.new.counts) result }
        ensures wants { WantsBy self.old.wants self.new.wants result }

        // In memory the answer is determined.
        ensures ok { IfOk result (λ n. GivesNext self.old self.new n buf.new) }
        ensures err { IfErr result (ReceiveFails self.old self.new) }
    {
        let fault = listed_fault(self.failing.items(), self.calls);
        let most = allowed(self.cuts.get(self.receives).copied(), buf.len());
        self.calls = self.calls.saturating_add(1);
        self.receives = self.receives.saturating_add(1);
        if let Some(fault) = fault {
            self.counts.raise(fault);
            return Err(fault);
        }
        let size = give(left_of(&self.exchange.stream, self.given), most, buf);
        self.given += size;
        Ok(size)
    }
}
