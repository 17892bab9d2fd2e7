ghost use Rattle.std.specs.Prelude.{◌≡◌, ◌<◌, ℕ, IfSome};
ghost use Rattle.dm_types.specs.Faults.{NoneFell, Rose};
ghost use Rattle.dm_edge.specs.Counts.{wire_count, wire_raised, net_count, net_raised, net_joined};
ghost use Rattle.dm_edge.specs.Faults.{wire_kind, net_kind, net_count_of};
ghost use Rattle.dm_edge.specs.declared.fault.WireFault.{WireFault as OnWire};

use crate::{NetFault, WireFault};

/// How often the calls of a wire failed, by kind. A count stays at 2^64 - 1 once it stands there.
#[derive(Clone, Copy, Debug, PartialEq, Eq)]
pub struct WireCounts {
    pub failed: u64,
    pub timeout: u64,
}

impl WireCounts {
    /// No call has failed.
    pub const NONE: WireCounts = WireCounts {
        failed: 0,
        timeout: 0,
    };

    /// Counts a fault. Want of memory is counted nowhere.
    pub fn raise(&mut self, fault: WireFault)
        ensures counted { self.new ≡ wire_raised fault self.old }
        ensures later { NoneFell (wire_count self.old) (wire_count self.new) }
        ensures rose { IfSome (wire_kind fault) (λ kind. Rose (wire_count self.old kind) (wire_count self.new kind)) }
    {
        match fault {
            WireFault::Failed => self.failed = self.failed.saturating_add(1),
            WireFault::Timeout => self.timeout = self.timeout.saturating_add(1),
            WireFault::NoMemory => (),
        }
    }
}

/// How often the calls of a net failed, by kind, and its closed wires. A count stays at 2^64 - 1
/// once it stands there.
#[derive(Clone, Copy, Debug, PartialEq, Eq)]
pub struct NetCounts {
    pub no_route: u64,
    pub refused: u64,
    pub timeout: u64,
    pub failed: u64,
}

impl NetCounts {
    /// No call has failed.
    pub const NONE: NetCounts = NetCounts {
        no_route: 0,
        refused: 0,
        timeout: 0,
        failed: 0,
    };

    /// Counts a fault. Want of memory is counted nowhere.
    pub fn raise(&mut self, fault: NetFault)
        ensures counted { self.new ≡ net_raised fault self.old }
        ensures later { NoneFell (net_count self.old) (net_count self.new) }
        ensures rose { IfSome (net_kind fault) (λ kind. Rose (net_count self.old kind) (net_count self.new kind)) }
    {
        match fault {
            NetFault::NoRoute => self.no_route = self.no_route.saturating_add(1),
            NetFault::Refused => self.refused = self.refused.saturating_add(1),
            NetFault::Timeout => self.timeout = self.timeout.saturating_add(1),
            NetFault::Failed => self.failed = self.failed.saturating_add(1),
            NetFault::NoMemory => (),
        }
    }

    /// Takes in the counts of a wire that is closed.
    pub fn join(&mut self, closed: WireCounts)
        ensures counted { self.new ≡ net_joined closed self.old }
        ensures later { NoneFell (net_count self.old) (net_count self.new) }
        ensures rose { (kind : OnWire) → 0 < wire_count closed kind
            → Rose (net_count self.old (net_count_of kind)) (net_count self.new (net_count_of kind)) }
    {
        self.timeout = self.timeout.saturating_add(closed.timeout);
        self.failed = self.failed.saturating_add(closed.failed);
    }
}
