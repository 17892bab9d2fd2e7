ghost use Rattle.std.specs.Prelude.{◌≤◌, ℕ, length, IfOk};
ghost use Rattle.dm_types.specs.Faults.{HasCause};
ghost use Rattle.dm_edge.specs.Faults.{edge_kind};
ghost use Rattle.dm_edge.specs.Wire.{Told};
ghost use Rattle.dm_edge.specs.declared.fault.EdgeFault.{EdgeFault as Fault};
ghost use Rattle.dm_conns.specs.Conn.{Reads};

use dm_edge::EdgeFault;

/// Where bytes come from, as a connection.
pub trait Source {
    /// The source tells its bytes.
    ghost tells: { Type 0 };

    /// What it gave and has left, and what was written to it, where it is a connection.
    ghost told: { Self → Told };

    /// How often a call failed.
    ghost faults: { Self → Fault → ℕ };

    /// Puts the next bytes at the front of the buffer, and says how many. 0 is the end, where the
    /// buffer has room.
    fn read(&mut self, buf: &mut [u8]) -> Result<usize, EdgeFault>
        ensures within { IfOk result (λ n. n ≤ length buf.old) }
        ensures given { tells → Reads (told self.old) (told self.new) result buf.new }
        ensures cause { HasCause edge_kind (faults self.old) (faults self.new) result };
}
