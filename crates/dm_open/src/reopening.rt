ghost use Rattle.std.specs.Prelude.{IfErr};
ghost use Rattle.dm_types.specs.Faults.{HasCause};
ghost use Rattle.dm_disk_model.specs.Beside.{Besides};
ghost use Rattle.dm_disk_model.specs.Moments.{Throughout};
ghost use Rattle.dm_store.specs.Origin.{said_of};
ghost use Rattle.dm_store.specs.Store.{IsStore, view_of};
ghost use Rattle.dm_answers.specs.Faults.{desk_kind};
ghost use Rattle.dm_answers.specs.Opening.{OpenKeeps, OpenLeaves, ReopenAnswers};
ghost use Rattle.dm_answers.specs.Reads.{IsSettledName};
ghost use Rattle.dm_open.specs.Refused.{ReopenRefuses};

use crate::resuming::resume;
use dm_answers::DeskFault;
use dm_disk_model::Disk;
use dm_edge::Origin;
use dm_find::{Hindered, find_list};
use dm_journal::JournalFault;
use dm_store::Store;

/// Opens the list anew on the store's own disk, also where it is broken.
pub fn reopen<D: Disk, O: Origin>(store: &mut Store<D, O>, at: u64) -> Result<(), DeskFault>
    requires store { IsStore D.tells D.history store.old }
    ensures store { IsStore D.tells D.history store.new }
    ensures answers { ReopenAnswers D.tells D.history D.far (said_of (O.says store.old.origin)) at (view_of store.old) (view_of store.new) result }
    ensures refused { IfErr result (ReopenRefuses D.tells D.history D.far (said_of (O.says store.old.origin)) at (view_of store.old) (view_of store.new)) }
    ensures moments { D.tells → Throughout (D.history store.old.disk) (D.history store.new.disk) (OpenLeaves D.tells (D.history store.old.disk) (D.history store.new.disk) at) }
    ensures keeps { D.tells → OpenKeeps D.tells (said_of (O.says store.old.origin)) (D.history store.old.disk) (D.history store.new.disk) at }
    ensures beside { D.tells → Besides (IsSettledName D.history store.old.disk) (D.history store.old.disk) (D.history store.new.disk) }
    ensures cause { HasCause desk_kind (D.faults store.old.disk) (D.faults store.new.disk) result }
{
    store.broken = true;
    let mut list = Vec::new(store.alloc);
    match list.reserve(1) {
        Ok(()) => {}
        Err(_) => return Err(DeskFault::NoMemory),
    }
    let found = match find_list(store.alloc, &mut store.disk, store.limits.items) {
        Ok(found) => found,
        Err(JournalFault::Disk(kind)) => return Err(DeskFault::Journal(kind)),
        Err(JournalFault::Damaged(place)) => return Err(DeskFault::Damaged(place)),
        Err(JournalFault::NoMemory) => return Err(DeskFault::NoMemory),
    };
    let lives = Vec::new(store.alloc);
    store.items = found.items;
    store.journal = found.journal;
    store.lives = lives;
    store.list = list;
    store.failed = None;
    match resume(store, at) {
        Ok(()) => Ok(()),
        Err(Hindered::Disk(kind)) => Err(DeskFault::Journal(kind)),
        Err(Hindered::NoMemory) => Err(DeskFault::NoMemory),
    }
}
