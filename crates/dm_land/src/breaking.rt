ghost use Rattle.std.specs.Prelude.{◌≡◌};
ghost use Rattle.dm_types.specs.Faults.{HasCause};
ghost use Rattle.dm_disk_model.specs.Moments.{KeepsFiles};
ghost use Rattle.dm_store.specs.Keeps.{Keeps, StaysNear};
ghost use Rattle.dm_store.specs.Origin.{said_of};
ghost use Rattle.dm_store.specs.Store.{IsStore, view_of};
ghost use Rattle.dm_answers.specs.Broke.{BrokeAnswers, IsMet};
ghost use Rattle.dm_answers.specs.Faults.{desk_kind};

use crate::passes::declined;
use dm_answers::DeskFault;
use dm_disk_model::Disk;
use dm_edge::Origin;
use dm_policy::{Cause, reason_of};
use dm_store::{Pass, Store, interrupt, live_at};

/// Interrupts an attempt by a cause that it met. It takes no memory.
pub fn broke<D: Disk, O: Origin>(
    store: &mut Store<D, O>,
    pass: &Pass,
    cause: &Cause,
) -> Result<(), DeskFault>
    requires store { IsStore D.tells D.history store.old }
    requires met { IsMet cause.now }
    ensures store { IsStore D.tells D.history store.new }
    ensures answers { BrokeAnswers (view_of store.old) (view_of store.new) pass.now cause.now result }
    ensures keeps { Keeps D.tells D.history (λ o. said_of (O.says o)) (view_of store.old) (view_of store.new) }
    ensures beside { D.tells → KeepsFiles (D.history store.old.disk) (D.history store.new.disk) }
    ensures cause { HasCause desk_kind (D.faults store.old.disk) (D.faults store.new.disk) result }
    ensures far { StaysNear (D.far store.old.disk) (D.far store.new.disk) (view_of store.old) (view_of store.new) }
{
    if store.broken {
        return Err(DeskFault::Broken);
    }
    match live_at(store, pass.id, pass.attempt) {
        Ok(_) => match interrupt(store, pass.id, reason_of(cause)) {
            Ok(()) => Ok(()),
            Err(kind) => Err(DeskFault::Journal(kind)),
        },
        Err(gone) => Err(declined(gone)),
    }
}
