ghost use Rattle.std.specs.Prelude.{◌≡◌, ◌≤◌, ℕ, length, IfOk};
ghost use Rattle.dm_types.specs.Faults.{HasCause};
ghost use Rattle.dm_edge.specs.Faults.{wire_kind};
ghost use Rattle.dm_edge.specs.Fair.{IsHonest};
ghost use Rattle.dm_edge.specs.Wire.{Purpose, Told, Sends, Receives, WantsBy};
ghost use Rattle.dm_edge.specs.declared.fault.WireFault.{WireFault as Fault};

use crate::{Origin, WireFault};

/// One connection to a server. It is handed back to its net, never dropped.
pub trait Wire {
    type O: Origin;

    /// The wire tells its stream and what was sent.
    ghost tells: { Type 0 };

    ghost origin: { Self → Self.O };

    /// What it was connected for.
    ghost purpose: { Self → Purpose };

    ghost told: { Self → Told };

    /// How often a call failed, by kind. Want of memory is not counted.
    ghost faults: { Self → Fault → ℕ };

    /// How often memory was wanting.
    ghost wants: { Self → ℕ };

    /// Sends the whole piece, or fails after some front of it.
    fn send(&mut self, piece: &[u8]) -> Result<(), WireFault>
        ensures sent { tells → Sends (told self.old) (told self.new) result piece.now }
        ensures stays { (purpose self.new ≡ purpose self.old) × (origin self.new ≡ origin self.old) }
        ensures cause { HasCause wire_kind (faults self.old) (faults self.new) result }
        ensures wants { WantsBy (wants self.old) (wants self.new) result };

    /// Puts the next bytes of the stream at the front of the buffer, and says how many. 0 is the
    /// end, where the buffer has room.
    fn receive(&mut self, buf: &mut [u8]) -> Result<usize, WireFault>
        ensures within { IfOk result (λ n. n ≤ length buf.old) }
        ensures given { tells → Receives (told self.old) (told self.new) result buf.new }
        ensures stays { (purpose self.new ≡ purpose self.old) × (origin self.new ≡ origin self.old) }
        ensures cause { HasCause wire_kind (faults self.old) (faults self.new) result }
        ensures wants { WantsBy (wants self.old) (wants self.new) result };

    /// It brings only what its origin says, or its origin says every byte.
    ghost honest: { (wire : Self) → IsHonest tells (Self.O.says (origin wire)) (purpose wire) (told wire) };
}
