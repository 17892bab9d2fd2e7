//! A session of the service over a disk.
ghost use Rattle.std.specs.Prelude.{◌≡◌};
ghost use Rattle.dm_types.specs.Faults.{NoneFell, Rose};
ghost use Rattle.dm_edge.specs.declared.fault.EdgeFault.TheVariants.{Failed};
ghost use Rattle.dm_store.specs.Keeps.{IsDesk};
ghost use Rattle.dm_store.specs.Origin.{said_of};
ghost use Rattle.dm_does.specs.Printing.{SameCounts};
ghost use Rattle.dm_past.specs.Past.{past_of};
ghost use Rattle.dm_works.specs.Moving.{Steps};
ghost use Rattle.dm_session.specs.Explaining.{ServeRuns, world_of};
ghost use Rattle.dm_session.specs.Looping.{ShutsSo};
ghost use Rattle.dm_session.specs.Serving.{IsTold};

use crate::closing::ending_of;
use crate::opening::refuse;
use crate::turning::serve_all;
use dm_conns::Conns;
use dm_disk_model::Disk;
use dm_edge::{Clock, Origin};
use dm_hist::Keeper;
use dm_items::Desk;
use dm_report::Ending;
use dm_types::LIMITS;
use std::alloc::Global;

/// A session that is over: how it ended, and the disk that was handed in.
#[derive(Debug, Drop)]
pub struct Session<D> {
    pub ending: Ending,
    pub disk: D,
}

/// Interrupts all that runs, and says whether the list is broken then.
fn shut<D: Disk, O: Origin>(desk: &mut Desk<D, O>) -> bool
    ensures shuts { ShutsSo desk.old desk.new }
    ensures broken { result ≡ desk.new.broken }
    ensures kept { IsDesk D.tells D.history desk.new }
    ensures steps { Steps D.tells D.history D.faults D.far (λ o. said_of (O.says o)) desk.old desk.new }
{
    match desk.shut() {
        Ok(()) => false,
        Err(_) => true,
    }
}

/// Opens the list of a disk at this moment, in milliseconds since 1970, serves so many connections from it and from the history,
/// one after another, and shuts it. It ends before, behind a reply that ends it, or where no connection can be accepted. Nothing
/// is fetched meanwhile. The clock is asked once for each connection.
pub fn run_session<D: Disk, O: Origin, K: Keeper, C: Clock, X: Conns>(
    alloc: Global,
    disk: D,
    origin: O,
    conns: &mut X,
    keeper: &mut K,
    clock: &mut C,
    at: u64,
    requests: u32,
) -> Session<D>
    ensures runs { ServeRuns (record { disk = D.tells; conns = X.tells; past = K.tells; moment = IsTold C.tells C.next; accepts = SameCounts (X.faults conns.old) (X.faults conns.new); accept_failed = Rose (X.faults conns.old Failed) (X.faults conns.new Failed) }) D.history D.faults (λ o. said_of (O.says o)) origin at
        (world_of D.history D.faults disk) (world_of D.history D.faults result.disk) (past_of K.rows K.faults keeper.old) (past_of K.rows K.faults keeper.new) (D.far disk) (D.far result.disk)
        (record { over = X.over conns.old; count = X.served conns.old }) (record { over = X.over conns.new; count = X.served conns.new }) requests result.ending }
    ensures later { NoneFell (X.faults conns.old) (X.faults conns.new) }
{
    match Desk::open(alloc, disk, origin, LIMITS, at) {
        Ok(desk) => {
            let mut desk = desk;
            let closed = serve_all(alloc, &mut desk, keeper, conns, clock, requests);
            let broken = shut(&mut desk);
            Session {
                ending: ending_of(alloc, closed, broken),
                disk: desk.into_disk(),
            }
        }
        Err(fault) => refuse(alloc, fault),
    }
}
