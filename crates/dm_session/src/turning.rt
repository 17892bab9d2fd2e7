//! Connections are served one after another.
ghost use Rattle.std.specs.Prelude.{◌≡◌};
ghost use Rattle.dm_types.specs.Faults.{NoneFell, Rose};
ghost use Rattle.dm_edge.specs.declared.fault.EdgeFault.TheVariants.{Failed};
ghost use Rattle.dm_store.specs.Keeps.{IsDesk};
ghost use Rattle.dm_store.specs.Origin.{said_of};
ghost use Rattle.dm_does.specs.Printing.{SameCounts};
ghost use Rattle.dm_works.specs.Moving.{Steps};
ghost use Rattle.dm_works.specs.Serving.{service_of};
ghost use Rattle.dm_session.specs.Turning.{stops_behind};
ghost use Rattle.dm_session.specs.Looping.{ClosesSo, TurnedSo, turned_by};
ghost use Rattle.dm_session.specs.Serving.{AnswersAt, IsTold};

use dm_api::Served;
use dm_conns::Conns;
use dm_disk_model::Disk;
use dm_edge::{Clock, EdgeFault, Origin};
use dm_hist::Keeper;
use dm_items::Desk;
use dm_works::serve_one;
use std::alloc::Global;

/// How the service came to its end.
#[derive(Clone, Copy, Debug, PartialEq, Eq)]
pub enum Closed {
    /// As many connections were served as it serves.
    Full,
    /// The last reply ends it.
    Stopped,
    /// The next connection could not be accepted.
    AcceptFailed,
}

/// What became of the next connection.
#[derive(Clone, Copy, Debug, PartialEq, Eq)]
pub(crate) enum Turned {
    GoesOn,
    Stops,
    NotAccepted,
}

fn stops(served: Served) -> bool
    ensures { result ≡ stops_behind served }
{
    match served {
        Served::Answered { stop, .. } => stop,
        Served::Dropped => false,
    }
}

fn by_stops(stops: bool) -> Turned
    ensures { result ≡ turned_by stops }
{
    if stops { Turned::Stops } else { Turned::GoesOn }
}

/// Accepts the next connection, serves it and hands it back. The clock is asked once for it.
fn serve_next<D: Disk, O: Origin, K: Keeper, C: Clock, X: Conns>(
    alloc: Global,
    desk: &mut Desk<D, O>,
    keeper: &mut K,
    conns: &mut X,
    clock: &mut C,
) -> Turned
    requires desk { IsDesk D.tells D.history desk.old }
    ensures kept { IsDesk D.tells D.history desk.new }
    ensures turned { TurnedSo X.tells (AnswersAt (IsTold C.tells C.next) D.tells K.tells D.history D.faults (λ o. said_of (O.says o))) (service_of K.rows K.faults desk.old keeper.old) (service_of K.rows K.faults desk.new keeper.new) (X.over conns.old) (X.over conns.new) (X.served conns.old) (X.served conns.new) (SameCounts (X.faults conns.old) (X.faults conns.new)) (Rose (X.faults conns.old Failed) (X.faults conns.new Failed)) result }
    ensures steps { Steps D.tells D.history D.faults D.far (λ o. said_of (O.says o)) desk.old desk.new }
    ensures later { NoneFell (X.faults conns.old) (X.faults conns.new) }
{
    match conns.accept() {
        Ok(conn) => {
            let mut conn = conn;
            let at = clock.now();
            let served = serve_one(alloc, desk, keeper, &mut conn, at);
            conns.done(conn);
            by_stops(stops(served))
        }
        Err(EdgeFault::Failed) => Turned::NotAccepted,
    }
}

/// Serves so many connections, one after another, unless one ends it.
pub(crate) fn serve_all<D: Disk, O: Origin, K: Keeper, C: Clock, X: Conns>(
    alloc: Global,
    desk: &mut Desk<D, O>,
    keeper: &mut K,
    conns: &mut X,
    clock: &mut C,
    requests: u32,
) -> Closed
    requires desk { IsDesk D.tells D.history desk.old }
    ensures kept { IsDesk D.tells D.history desk.new }
    ensures closes { ClosesSo X.tells (AnswersAt (IsTold C.tells C.next) D.tells K.tells D.history D.faults (λ o. said_of (O.says o))) (service_of K.rows K.faults desk.old keeper.old) (service_of K.rows K.faults desk.new keeper.new) (X.over conns.old) (X.over conns.new) (X.served conns.old) (X.served conns.new) (SameCounts (X.faults conns.old) (X.faults conns.new)) (Rose (X.faults conns.old Failed) (X.faults conns.new Failed)) requests result }
    ensures steps { Steps D.tells D.history D.faults D.far (λ o. said_of (O.says o)) desk.old desk.new }
    ensures later { NoneFell (X.faults conns.old) (X.faults conns.new) }
{
    let mut left = requests;
    'turns: while left > 0 {
        match serve_next(alloc, desk, keeper, conns, clock) {
            Turned::GoesOn => left -= 1,
            Turned::Stops => return Closed::Stopped,
            Turned::NotAccepted => return Closed::AcceptFailed,
        }
    }
    Closed::Full
}
