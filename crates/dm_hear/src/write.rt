//! A reply is written.
ghost use Rattle.dm_types.specs.Faults.{HasCause};
ghost use Rattle.dm_edge.specs.Faults.{edge_kind};
ghost use Rattle.dm_hear.specs.Written.{WritesAll};

use dm_conns::Conn;
use dm_edge::EdgeFault;

/// Writes all the bytes to the connection. Where a write fails, some front of them was written.
pub fn write_api<X: Conn>(conn: &mut X, bytes: &[u8]) -> Result<(), EdgeFault>
    ensures written { X.tells → WritesAll (X.told conn.old) (X.told conn.new) result bytes.now }
    ensures cause { HasCause edge_kind (X.faults conn.old) (X.faults conn.new) result }
{
    let mut rest = bytes;
    while !rest.is_empty() {
        match conn.write(rest) {
            Ok(count) => rest = rest.split_at(count).1,
            Err(fault) => return Err(fault),
        }
    }
    Ok(())
}
