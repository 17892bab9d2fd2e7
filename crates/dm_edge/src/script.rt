ghost use Rattle.std.specs.Prelude.{◌≡◌};
ghost use Rattle.dm_edge.specs.Script.{fault_at};

use crate::{NetFault, WireFault};
use dm_types::{Address, Attempt, ItemId, Listed, NumberList, Text};

/// How the calls of a wire fail, by their numbers from 0, sends and receives together.
pub type WireFails = Listed<(u64, WireFault)>;

/// How the connects of a net fail, by their numbers from 0.
pub type NetFails = Listed<(u64, NetFault)>;

/// What a server says on one connection, however it is asked.
#[derive(Debug, Drop)]
pub struct WireScript {
    pub stream: Text,
    /// The most bytes that each receive gives, the first receive's first.
    pub cuts: NumberList,
    pub failing: WireFails,
}

/// The connections of a net in order.
pub type WireScripts = Listed<WireScript>;

/// What went over one connection.
#[derive(Debug, Drop)]
pub struct Exchange {
    pub address: Address,
    pub id: ItemId,
    pub attempt: Attempt,
    /// What was sent to the server.
    pub sent: Text,
    /// What the server said, also what was never received.
    pub stream: Text,
}

/// The fault that is listed under a call's number.
pub(crate) fn listed_fault<F: Copy>(entries: &[(u64, F)], call: u64) -> Option<F>
    ensures { result ≡ fault_at entries.now call }
{
    for (number, fault) in entries {
        if *number == call {
            return Some(*fault);
        }
    }
    None
}
