//! One connection is served.
ghost use Rattle.dm_types.specs.Faults.{NoneFell};
ghost use Rattle.dm_store.specs.Keeps.{IsDesk};
ghost use Rattle.dm_store.specs.Origin.{said_of};
ghost use Rattle.dm_api.specs.Serving.{Serves};
ghost use Rattle.dm_works.specs.Moving.{Steps};
ghost use Rattle.dm_works.specs.Requests.{AnswersOn};
ghost use Rattle.dm_works.specs.Serving.{service_of};

use crate::answering::answer;
use dm_api::{Served, outgoing_of, read_api, refusal, send_out};
use dm_conns::Conn;
use dm_disk_model::Disk;
use dm_edge::Origin;
use dm_hist::Keeper;
use dm_items::Desk;
use std::alloc::Global;

/// Reads a request, answers it from the desk and the history, and writes the reply. Want of memory is answered by a fixed text.
pub fn serve_one<D: Disk, O: Origin, K: Keeper, X: Conn>(
    alloc: Global,
    desk: &mut Desk<D, O>,
    keeper: &mut K,
    conn: &mut X,
    now: u64,
) -> Served
    ensures kept { IsDesk D.tells D.history desk.new }
    ensures served { Serves X.tells (AnswersOn D.tells K.tells D.history D.faults (λ o. said_of (O.says o))) (service_of K.rows K.faults desk.old keeper.old) (service_of K.rows K.faults desk.new keeper.new) (X.told conn.old) (X.told conn.new) (X.faults conn.old) (X.faults conn.new) now result }
    ensures steps { Steps D.tells D.history D.faults D.far (λ o. said_of (O.says o)) desk.old desk.new }
    ensures later { NoneFell (X.faults conn.old) (X.faults conn.new) }
{
    let _items = desk.items();
    match read_api(alloc, conn) {
        Ok(request) => {
            let outgoing = outgoing_of(answer(alloc, desk, keeper, &request, now));
            send_out(conn, &outgoing)
        }
        Err(fault) => {
            let outgoing = refusal(alloc, fault);
            send_out(conn, &outgoing)
        }
    }
}
