ghost use Rattle.std.specs.Prelude.{◌≡◌, ◌+◌, [], ◌∷◌, ◌++◌, length, IfOk, IfErr, slice_get, Some};

use dm_types::Text;
use std::marker::Model;

/// What went over a connection.
#[derive(Debug, Drop)]
pub struct Served {
    /// All that it gives, also what was never read.
    pub stream: Text,
    /// What was written to it.
    pub written: Vec<u8>,
    /// How many calls on it failed.
    pub failed: u64,
}

/// Connections that are over. The newest is at hand, and contracts see the oldest first.
#[cycle(chain)]
#[derive(Debug)]
pub(crate) struct Chain {
    top: Link,
}

#[cycle(chain)]
#[derive(Debug)]
enum Link {
    End,
    More(Served, Box<Chain>),
}

impl Drop for Chain {
    /// One after another, since a long chain would want a frame of the stack for each link.
    fn drop(mut self) {
        loop {
            match self {
                Chain { top: Link::End } => return,
                Chain {
                    top: Link::More(_newest, older),
                } => self = Box::into_inner(older),
            }
        }
    }
}

impl Model for Chain {
    ghost use Rattle.std.specs.Prelude.{List, length};
    ghost use Rattle.dm_conns.specs.declared.chain.Served.{Served};

    ghost Value = { List Served };

    ghost use Rattle.dm_conns.specs.Chain.{linked};

    ghost view = { λ c. linked c.top };

    ghost size = { length };

    ghost use Rattle.std.proofs.Common.{arith, length-append};

    ghost size_decreases = { λ a h. Prim.grind (arith, length-append) };
}

impl Chain {
    /// No connections.
    pub(crate) fn new() -> Chain
        ensures { result ≡ [] }
    {
        Chain { top: Link::End }
    }

    /// Adds a connection as the newest. The spare box takes the older ones, so that no memory is
    /// wanted.
    pub(crate) fn push(&mut self, newest: Served, mut spare: Box<Chain>)
        ensures { self.new ≡ self.old ++ newest ∷ [] }
    {
        *spare = std::mem::replace(self, Chain::new());
        *self = Chain {
            top: Link::More(newest, spare),
        };
    }

    /// The connection at a place, counted from 0 from the oldest on, or how far past the newest the
    /// place lies.
    pub(crate) fn at(&self, place: u64) -> Result<&Served, u64>
        ensures found { IfOk result (λ served. slice_get self.now place ≡ Some served.now) }
        ensures past { IfErr result (λ more. place ≡ length self.now + more) }
    {
        match &self.top {
            Link::End => Err(place),
            Link::More(newest, older) => match older.at(place) {
                Ok(served) => Ok(served),
                Err(0) => Ok(newest),
                Err(more) => Err(more - 1),
            },
        }
    }
}
