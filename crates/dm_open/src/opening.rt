ghost use Rattle.std.specs.Prelude.{◌≡◌, IfErr, IfOk};
ghost use Rattle.dm_types.specs.Faults.{HasCause};
ghost use Rattle.dm_types.specs.Limits.{IsLimits};
ghost use Rattle.dm_disk_model.specs.Beside.{Besides};
ghost use Rattle.dm_disk_model.specs.Moments.{Throughout};
ghost use Rattle.dm_store.specs.Origin.{said_of};
ghost use Rattle.dm_store.specs.Store.{IsStore};
ghost use Rattle.dm_answers.specs.Faults.{open_kind};
ghost use Rattle.dm_answers.specs.Opening.{OpenAnswers, OpenKeeps, OpenLeaves, disk_of};
ghost use Rattle.dm_answers.specs.Reads.{IsSettledName, seen};
ghost use Rattle.dm_open.specs.Refused.{OpenRefuses, OpensOn};

use crate::resuming::resume;
use dm_answers::OpenFault;
use dm_disk_model::Disk;
use dm_edge::Origin;
use dm_find::{Hindered, find_list};
use dm_journal::JournalFault;
use dm_store::Store;
use dm_types::{Limits, let_go};
use std::alloc::Global;

/// Opens the list of a disk: finds its journal or starts it, records that it was opened, settles each item
/// that was being finished, and sweeps.
pub fn open<D: Disk, O: Origin>(
    alloc: Global,
    disk: D,
    origin: O,
    limits: Limits,
    at: u64,
) -> Result<Store<D, O>, OpenFault<D>>
    requires { IsLimits limits }
    ensures store { IfOk result (IsStore D.tells D.history) }
    ensures answers { OpenAnswers D.tells D.history D.far (said_of (O.says origin)) disk origin limits at (seen result) }
    ensures refused { IfErr result (OpenRefuses D.tells D.history D.far (said_of (O.says origin)) disk limits.items at) }
    ensures on { OpensOn D.tells D.history (said_of (O.says origin)) disk (seen result) }
    ensures moments { D.tells → Throughout (D.history disk) (D.history (disk_of (seen result))) (OpenLeaves D.tells (D.history disk) (D.history (disk_of (seen result))) at) }
    ensures keeps { D.tells → OpenKeeps D.tells (said_of (O.says origin)) (D.history disk) (D.history (disk_of (seen result))) at }
    ensures beside { D.tells → Besides (IsSettledName D.history disk) (D.history disk) (D.history (disk_of (seen result))) }
    ensures cause { HasCause open_kind (D.faults disk) (D.faults (disk_of (seen result))) result }
{
    let mut disk = disk;
    let mut list = Vec::new(alloc);
    match list.reserve(1) {
        Ok(()) => {}
        Err(_) => return Err(OpenFault::NoMemory(disk)),
    }
    let found = match find_list(alloc, &mut disk, limits.items) {
        Ok(found) => found,
        Err(JournalFault::Disk(kind)) => return Err(OpenFault::Disk(kind, disk)),
        Err(JournalFault::Damaged(place)) => return Err(OpenFault::Damaged(place, disk)),
        Err(JournalFault::NoMemory) => return Err(OpenFault::NoMemory(disk)),
    };
    let lives = Vec::new(alloc);
    let mut store = Store {
        disk,
        origin,
        limits,
        items: found.items,
        lives,
        journal: found.journal,
        broken: true,
        list,
        failed: None,
        alloc,
    };
    match resume(&mut store, at) {
        Ok(()) => Ok(store),
        Err(Hindered::Disk(kind)) => Err(OpenFault::Disk(kind, disk_from(store))),
        Err(Hindered::NoMemory) => Err(OpenFault::NoMemory(disk_from(store))),
    }
}

/// The disk of a store, whose other parts go.
fn disk_from<D: Disk, O: Origin>(store: Store<D, O>) -> D
    ensures { result ≡ store.disk }
{
    let Store {
        disk,
        origin,
        items,
        lives,
        journal,
        list,
        failed,
        ..
    } = store;
    let_go(origin);
    let_go(items);
    let_go(lives);
    let_go(journal);
    let_go(list);
    let_go(failed);
    disk
}
