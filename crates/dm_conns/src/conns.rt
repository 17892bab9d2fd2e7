ghost use Rattle.std.specs.Prelude.{◌≡◌, ℕ, List, [], ◌∷◌, ◌++◌, IfOk};
ghost use Rattle.dm_types.specs.Faults.{HasCause};
ghost use Rattle.dm_edge.specs.Counts.{raised_by};
ghost use Rattle.dm_edge.specs.Faults.{edge_kind};
ghost use Rattle.dm_edge.specs.Wire.{IsFresh};
ghost use Rattle.dm_edge.specs.declared.fault.EdgeFault.{EdgeFault as Fault};
ghost use Rattle.dm_conns.specs.Conn.{Over, over_of};

use crate::Conn;
use dm_edge::EdgeFault;

/// What takes connections, one after another, and gets each back when it is done with.
pub trait Conns {
    type X: Conn;

    /// It tells what went over the connections that it got back.
    ghost tells: { Type 0 };

    /// The connections that were handed back, in order.
    ghost over: { Self → List Over };

    /// How many were handed back. The count stays at 2^64 - 1.
    ghost served: { Self → ℕ };

    /// How often `accept` failed.
    ghost faults: { Self → Fault → ℕ };

    /// Waits for the next connection. One that is accepted leaves the counts.
    fn accept(&mut self) -> Result<Self::X, EdgeFault>
        ensures fresh { IfOk result (λ conn. Self.X.tells → IsFresh (Self.X.told conn)) }
        ensures unfailed { IfOk result (λ conn. (kind : Fault) → Self.X.faults conn kind ≡ 0) }
        ensures over { over self.new ≡ over self.old }
        ensures served { served self.new ≡ served self.old }
        ensures cause { HasCause edge_kind (faults self.old) (faults self.new) result }
        ensures quiet { IfOk result (λ _. (kind : Fault) → faults self.new kind ≡ faults self.old kind) };

    /// Takes a connection back. It takes no memory and cannot fail.
    fn done(&mut self, conn: Self::X)
        ensures over { tells → over self.new ≡ over self.old ++ over_of (Self.X.told conn) (Self.X.faults conn) ∷ [] }
        ensures served { served self.new ≡ raised_by 1 (served self.old) }
        ensures faults { (kind : Fault) → faults self.new kind ≡ faults self.old kind };

    /// Where it tells, its connections do.
    ghost conns_tell: { tells → Self.X.tells };
}
