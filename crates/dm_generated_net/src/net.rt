ghost use Rattle.std.specs.Prelude.{◌≡◌, ◌<◌, ℕ, IfOk, IfErr, IsTrue};
ghost use Rattle.dm_edge.specs.Wire.{IsFresh};
ghost use Rattle.dm_edge.specs.declared.fault.WireFault.{WireFault as OnWire};
ghost use Rattle.dm_generated_net.specs.Own.{AreItsOwn};
ghost use Rattle.dm_generated_net.specs.Wired.{fresh_net, Connects, ConnectFails, told_by, with_closed};

use crate::GeneratedWire;
use crate::chain::{Chain, Connection};
use dm_edge::{Generated, Net, NetFault};
use dm_generated::Reply;
use dm_types::{Address, Attempt, ItemId, NoMemory, Text};
use std::alloc::Global;
use std::marker::Model;

/// A net whose wires bring what a number generates, whatever they are connected to. It keeps no content.
#[derive(Debug, Drop)]
pub struct GeneratedNet {
    number: u64,
    /// The number of the next wire, from 0.
    wires: u64,
    closed: Chain,
}

impl Model for GeneratedNet {
    ghost use Rattle.std.specs.Prelude.{◌<◌, ◌^◌, map};
    ghost use Rattle.dm_generated_net.specs.Chain.{closed_as};
    ghost use Rattle.dm_generated_net.specs.Wired.{NetState};

    ghost Value = { NetState };

    ghost view = { λ n. record { number = n.number; wires = n.wires; closed = map closed_as n.closed } };

    ghost invariant = { λ n. n.number < 2 ^ 32 };
}

impl GeneratedNet {
    /// The net of a number, before its first connection.
    pub fn new(number: u32) -> GeneratedNet
        ensures { result ≡ fresh_net number }
    {
        GeneratedNet {
            number: u64::from(number),
            wires: 0,
            closed: Chain::new(),
        }
    }

    /// Whether the connections that are over are those of all wires that it made, each once. Of more than 64 it doesn't
    /// say so.
    pub fn is_over(&self) -> bool
        ensures { IsTrue result → AreItsOwn self.now }
    {
        if self.wires > 64 {
            return false;
        }
        let mut marks = [false; 64];
        match self.closed.mark(self.number, self.wires, &mut marks) {
            Some(count) => count == self.wires,
            None => false,
        }
    }
}

/// What a wire is made of, but for its numbers.
struct Parts {
    address: Address,
    spare: Box<Chain>,
}

fn parts_of(alloc: Global, address: &Address) -> Result<Parts, NoMemory>
    ensures { IfOk result (λ parts. parts.address ≡ address.now) }
{
    let address = address.copy(alloc)?;
    match Box::new(alloc, Chain::new()) {
        Ok(spare) => Ok(Parts { address, spare }),
        Err(_) => Err(NoMemory),
    }
}

impl Net for GeneratedNet {
    type O = Generated;

    type W = GeneratedWire;

    ghost tells = { Unit {0} };

    ghost origin_of = { λ n. record { seed = n.number } };

    ghost closed = { λ n. n.closed };

    ghost faults = { λ _ _. 0 };

    ghost wires_tell = { λ _. tt };

    fn origin(&self) -> Generated {
        Generated { seed: self.number }
    }

    fn connect(
        &mut self,
        alloc: Global,
        address: &Address,
        id: ItemId,
        attempt: Attempt,
    ) -> Result<GeneratedWire, NetFault>
        ensures fresh { IfOk result (λ wire. IsFresh (told_by wire)) }
        ensures purpose { IfOk result (λ wire. wire.purpose ≡ record { address = address.now; id = id; attempt = attempt }) }
        ensures wire_origin { IfOk result (λ wire. wire.number ≡ self.old.number) }
        ensures closed { self.new.closed ≡ self.old.closed }
        ensures stays { self.new.number ≡ self.old.number }

        // In memory the answer is determined, but for want of memory.
        ensures ok { IfOk result (Connects self.old self.new (record { address = address.now; id = id; attempt = attempt })) }
        ensures err { IfErr result (ConnectFails self.old self.new) }
    {
        match parts_of(alloc, address) {
            Ok(parts) => {
                let Parts { address, spare } = parts;
                let wire = self.wires;
                self.wires = self.wires.saturating_add(1);
                Ok(GeneratedWire {
                    alloc,
                    number: self.number,
                    wire,
                    address,
                    id,
                    attempt,
                    sent: Text::new(alloc),
                    reply: Reply::Nothing,
                    head: Text::new(alloc),
                    given: 0,
                    wants: 0,
                    spare,
                })
            }
            Err(NoMemory) => Err(NetFault::NoMemory),
        }
    }

    fn close(&mut self, wire: GeneratedWire)
        ensures closed { self.new ≡ with_closed self.old wire }
    {
        let GeneratedWire {
            alloc: _,
            number,
            wire: place,
            address,
            id,
            attempt,
            sent,
            reply,
            head: _head,
            given: _,
            wants: _,
            spare,
        } = wire;
        let connection = Connection {
            number,
            wire: place,
            address,
            id,
            attempt,
            sent,
            reply,
        };
        self.closed.push(connection, spare);
    }
}
