//! What goes out is written.
ghost use Rattle.dm_types.specs.Faults.{NoneFell};
ghost use Rattle.dm_api.specs.Outgoing.{reply_in};
ghost use Rattle.dm_api.specs.Serving.{Sends, SendsOut};

use crate::Outgoing;
use dm_conns::Conn;
use dm_hear::write_api;
use dm_response::fixed_memory_reply;

/// What became of a connection.
#[derive(Clone, Copy, Debug, PartialEq, Eq)]
pub enum Served {
    /// A reply with this status was written, and the service ends behind it or not.
    Answered { status: u16, stop: bool },
    /// Its request was cut, or a call on it failed.
    Dropped,
}

/// Writes what goes out. Want of memory is answered by a fixed text.
pub fn send_out<X: Conn>(conn: &mut X, outgoing: &Outgoing) -> Served
    ensures sent { SendsOut X.tells (X.told conn.old) (X.told conn.new) (X.faults conn.old) (X.faults conn.new) (reply_in outgoing.now) result }
    ensures later { NoneFell (X.faults conn.old) (X.faults conn.new) }
{
    match outgoing {
        Outgoing::Reply(reply) => send(conn, reply.bytes.bytes(), reply.status, reply.stop),
        Outgoing::Memory => send(conn, fixed_memory_reply(), 500, false),
        Outgoing::Nothing => Served::Dropped,
    }
}

fn send<X: Conn>(conn: &mut X, bytes: &[u8], status: u16, stop: bool) -> Served
    ensures sent { Sends X.tells (X.told conn.old) (X.told conn.new) (X.faults conn.old) (X.faults conn.new) (record { status = status; bytes = bytes.now; stop = stop }) result }
    ensures later { NoneFell (X.faults conn.old) (X.faults conn.new) }
{
    match write_api(conn, bytes) {
        Ok(()) => Served::Answered { status, stop },
        Err(_) => Served::Dropped,
    }
}
