ghost use Rattle.std.specs.Prelude.{◌≡◌, ◌≤◌, [], ◌∷◌, ◌++◌, length, IfSome, IsTrue};
ghost use Rattle.dm_generated_net.specs.Own.{AreMarked, IsMarked};

use dm_generated::Reply;
use dm_types::{Address, Attempt, ItemId, Text};
use std::marker::Model;

/// A connection that is over. What was said on it isn't kept: it is told by these.
#[derive(Debug, Drop)]
pub(crate) struct Connection {
    pub(crate) number: u64,
    pub(crate) wire: u64,
    pub(crate) address: Address,
    pub(crate) id: ItemId,
    pub(crate) attempt: Attempt,
    pub(crate) sent: Text,
    pub(crate) reply: Reply,
}

/// Connections that are over. The newest is at hand, and contracts see the oldest first.
#[cycle(chain)]
#[derive(Debug)]
pub(crate) struct Chain {
    top: Link,
}

#[cycle(chain)]
#[derive(Debug)]
enum Link {
    End,
    More(Connection, Box<Chain>),
}

impl Drop for Chain {
    /// One after another, since a long chain would want a frame of the stack for each link.
    fn drop(mut self) {
        loop {
            match self {
                Chain { top: Link::End } => return,
                Chain {
                    top: Link::More(_newest, older),
                } => self = Box::into_inner(older),
            }
        }
    }
}

impl Model for Chain {
    ghost use Rattle.std.specs.Prelude.{List, length};
    ghost use Rattle.dm_generated_net.specs.declared.chain.Connection.{Connection};

    ghost Value = { List Connection };

    ghost use Rattle.dm_generated_net.specs.Chain.{linked};

    ghost view = { λ c. linked c.top };

    ghost size = { length };

    ghost use Rattle.std.proofs.Common.{arith, length-append};

    ghost size_decreases = { λ a h. Prim.grind (arith, length-append) };
}

impl Chain {
    /// No connections.
    pub(crate) fn new() -> Chain
        ensures { result ≡ [] }
    {
        Chain { top: Link::End }
    }

    /// Adds a connection as the newest. The spare box takes the older ones, so that no memory is
    /// wanted.
    pub(crate) fn push(&mut self, newest: Connection, mut spare: Box<Chain>)
        ensures { self.new ≡ self.old ++ newest ∷ [] }
    {
        *spare = std::mem::replace(self, Chain::new());
        *self = Chain {
            top: Link::More(newest, spare),
        };
    }

    /// Marks the wires of these connections, and counts them. `None` where one of them is of another number, not below
    /// the bound, or marked already.
    pub(crate) fn mark(&self, number: u64, bound: u64, marks: &mut [bool]) -> Option<u64>
        requires { bound ≤ length marks.old }
        ensures count { IfSome result (λ count. count ≡ length self.now) }
        ensures marked { IfSome result (λ _. AreMarked number bound self.now marks.new) }
        ensures long { length marks.new ≡ length marks.old }
    {
        match &self.top {
            Link::End => Some(0),
            Link::More(newest, older) => match older.mark(number, bound, marks) {
                Some(count) if mark_one(newest, number, bound, marks) => count.checked_add(1),
                _ => None,
            },
        }
    }
}

/// Marks the wire of a connection, where it is one of the number, below the bound and not marked already.
fn mark_one(connection: &Connection, number: u64, bound: u64, marks: &mut [bool]) -> bool
    requires { bound ≤ length marks.old }
    ensures marked { IsTrue result → IsMarked number bound connection.now marks.old marks.new }
    ensures long { length marks.new ≡ length marks.old }
{
    if connection.number != number || connection.wire >= bound {
        return false;
    }
    let wire = connection.wire as usize;
    if marks[wire] {
        return false;
    }
    marks[wire] = true;
    true
}
