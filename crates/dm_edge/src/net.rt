ghost use Rattle.std.specs.Prelude.{◌≡◌, ◌<◌, ℕ, List, [], ◌∷◌, ◌++◌, IfOk};
ghost use Rattle.dm_types.specs.Faults.{HasCause, NoneFell, Rose};
ghost use Rattle.dm_edge.specs.Faults.{net_kind, net_count_of};
ghost use Rattle.dm_edge.specs.Wire.{Closed, closed_of, IsFresh};
ghost use Rattle.dm_edge.specs.declared.fault.NetFault.{NetFault as Fault};
ghost use Rattle.dm_edge.specs.declared.fault.WireFault.{WireFault as OnWire};

use crate::{NetFault, Origin, Wire};
use dm_types::{Address, Attempt, ItemId};
use std::alloc::Global;

/// What makes connections, and takes each back when it is done with.
pub trait Net {
    type O: Origin;

    type W: Wire<O = Self::O>;

    /// The net tells which connections it took back.
    ghost tells: { Type 0 };

    ghost origin_of: { Self → Self.O };

    /// The connections that were handed back, in order.
    ghost closed: { Self → List Closed };

    /// How often a call failed, by kind, the closed wires' faults among them.
    ghost faults: { Self → Fault → ℕ };

    fn origin(&self) -> Self::O
        ensures { result ≡ origin_of self.now };

    /// Connects to the address's host and port, for this attempt on this item.
    fn connect(
        &mut self,
        alloc: Global,
        address: &Address,
        id: ItemId,
        attempt: Attempt,
    ) -> Result<Self::W, NetFault>
        ensures fresh { IfOk result (λ wire. Self.W.tells → IsFresh (Self.W.told wire)) }
        ensures purpose { IfOk result (λ wire. Self.W.tells → Self.W.purpose wire ≡ record { address = address.now; id = id; attempt = attempt }) }
        ensures unfailed { IfOk result (λ wire. (kind : OnWire) → Self.W.faults wire kind ≡ 0) }
        ensures wire_origin { IfOk result (λ wire. Self.W.origin wire ≡ origin_of self.old) }
        ensures closed { closed self.new ≡ closed self.old }
        ensures stays { origin_of self.new ≡ origin_of self.old }
        ensures cause { HasCause net_kind (faults self.old) (faults self.new) result };

    /// Takes a wire back. It takes no memory and cannot fail.
    fn close(&mut self, wire: Self::W)
        ensures closed { tells → closed self.new ≡ closed self.old ++ closed_of (Self.W.purpose wire) (Self.W.told wire) ∷ [] }
        ensures stays { origin_of self.new ≡ origin_of self.old }
        ensures later { NoneFell (faults self.old) (faults self.new) }
        ensures counted { (kind : OnWire) → 0 < Self.W.faults wire kind
            → Rose (faults self.old (net_count_of kind)) (faults self.new (net_count_of kind)) };

    /// Where the net tells, its wires do.
    ghost wires_tell: { tells → Self.W.tells };
}
