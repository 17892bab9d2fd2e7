ghost use Rattle.std.specs.Prelude.{◌≡◌};
ghost use Rattle.dm_edge.specs.Causes as causes;

use crate::{NetFault, WireFault};
use dm_policy::Cause;

/// The cause of a fault of the net.
pub fn net_cause(fault: NetFault) -> Cause
    ensures { result ≡ causes.net_cause fault }
{
    match fault {
        NetFault::NoRoute => Cause::NetNoRoute,
        NetFault::Refused => Cause::NetRefused,
        NetFault::Timeout => Cause::NetTimeout,
        NetFault::Failed => Cause::NetFailed,
        NetFault::NoMemory => Cause::Memory,
    }
}

/// The cause of a fault of a wire.
pub fn wire_cause(fault: WireFault) -> Cause
    ensures { result ≡ causes.wire_cause fault }
{
    match fault {
        WireFault::Failed => Cause::NetFailed,
        WireFault::Timeout => Cause::NetTimeout,
        WireFault::NoMemory => Cause::Memory,
    }
}
