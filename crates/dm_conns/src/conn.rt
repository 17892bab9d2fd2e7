ghost use Rattle.std.specs.Prelude.{◌<◌, ◌≤◌, length, IfOk};
ghost use Rattle.dm_types.specs.Faults.{HasCause};
ghost use Rattle.dm_edge.specs.Faults.{edge_kind};
ghost use Rattle.dm_conns.specs.Conn.{Puts};

use crate::Source;
use dm_edge::EdgeFault;

/// A connection that somebody made to `dm`. It is handed back to what accepted it, never dropped.
pub trait Conn: Source {
    /// Writes the first bytes of the piece, at least one of a piece that isn't empty, and says how
    /// many. A write that fails may have written some of them.
    fn write(&mut self, piece: &[u8]) -> Result<usize, EdgeFault>
        ensures some { IfOk result (λ n. 0 < length piece.now → 0 < n) }
        ensures within { IfOk result (λ n. n ≤ length piece.now) }
        ensures sent { Self.tells → Puts (Self.told self.old) (Self.told self.new) result piece.now }
        ensures cause { HasCause edge_kind (Self.faults self.old) (Self.faults self.new) result };
}
