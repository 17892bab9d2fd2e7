ghost use Rattle.std.specs.Prelude.{◌≡◌, ◌<◌, ◌≤◌, ℕ, List, length, IfOk};
ghost use Rattle.dm_types.specs.Faults.{HasCause};
ghost use Rattle.dm_edge.specs.Faults.{edge_kind};
ghost use Rattle.dm_edge.specs.Sink.{Writes};
ghost use Rattle.dm_edge.specs.declared.fault.EdgeFault.{EdgeFault as Fault};

use crate::EdgeFault;

/// Where bytes are written, as standard output or a connection.
pub trait Sink {
    /// The sink tells what was written to it.
    ghost tells: { Type 0 };

    /// All that was written to it.
    ghost written: { Self → List ℕ };

    /// How often a write failed.
    ghost faults: { Self → Fault → ℕ };

    /// Writes the first bytes of the piece, at least one of a piece that isn't empty, and says how
    /// many. A write that fails may have written some of them; one that doesn't leaves the counts.
    fn write(&mut self, piece: &[u8]) -> Result<usize, EdgeFault>
        ensures some { IfOk result (λ n. 0 < length piece.now → 0 < n) }
        ensures within { IfOk result (λ n. n ≤ length piece.now) }
        ensures written { tells → Writes (written self.old) (written self.new) result piece.now }
        ensures cause { HasCause edge_kind (faults self.old) (faults self.new) result }
        ensures quiet { IfOk result (λ _. (kind : Fault) → faults self.new kind ≡ faults self.old kind) };
}
