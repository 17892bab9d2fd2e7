ghost use Rattle.std.specs.Prelude.{◌≡◌, ◌≢◌, false, IsSome, Ok};
ghost use Rattle.dm_types.specs.Faults.{HasCause, NoneFell};
ghost use Rattle.dm_types.specs.declared.reason.Reason.TheVariants as reasons;
ghost use Rattle.dm_disk_model.specs.Beside.{Besides};
ghost use Rattle.dm_disk_model.specs.Disk.{bytes_at, now};
ghost use Rattle.dm_disk_model.specs.Moments.{KeepsFiles};
ghost use Rattle.dm_store.specs.Keeps.{Keeps, StaysNear};
ghost use Rattle.dm_store.specs.Lives.{life_in};
ghost use Rattle.dm_store.specs.Origin.{said_of};
ghost use Rattle.dm_store.specs.Store.{IsStore, view_of};
ghost use Rattle.dm_answers.specs.declared.answer.Finished.TheVariants as finished;
ghost use Rattle.dm_answers.specs.Faults.{desk_kind};
ghost use Rattle.dm_answers.specs.Reads.{IsPartOrNameOf};
ghost use Rattle.dm_finish.specs.Closing.{Closes, CompleteMakes, IsClosing, StopMakes};
ghost use Rattle.dm_finish.specs.Ending.{IsEnding, IsNaming};

use crate::{Confirmed, Naming, confirm, give_name};
use dm_answers::{DeskFault, Finished};
use dm_disk_model::Disk;
use dm_edge::Origin;
use dm_policy::{Cause, reason_of};
use dm_store::{Store, interrupt};
use dm_types::{ItemId, Reason, let_go};

/// Ends an item whose content is saved: takes the sum of its part, and gives its file the name or
/// interrupts it. It takes no memory.
pub fn close<D: Disk, O: Origin>(
    store: &mut Store<D, O>,
    id: ItemId,
    total: u64,
    stated: Option<[u8; 32]>,
    naming: Naming,
    at: u64,
) -> Result<Finished, DeskFault>
    requires store { IsStore D.tells D.history store.old }
    requires whole { store.old.broken ≡ false }
    requires closing { IsClosing (view_of store.old) id total stated naming }
    ensures store { IsStore D.tells D.history store.new }
    ensures keeps { Keeps D.tells D.history (λ o. said_of (O.says o)) (view_of store.old) (view_of store.new) }
    ensures makes { Closes D.tells D.history D.faults (view_of store.old) (view_of store.new) id total stated naming at result }
    ensures reads { D.tells → result ≡ Ok finished.Complete → bytes_at (now (D.history store.new.disk)) naming.target ≡ bytes_at (now (D.history store.old.disk)) naming.part }
    ensures beside { D.tells → Besides (IsPartOrNameOf (view_of store.new) id) (D.history store.old.disk) (D.history store.new.disk) }
    ensures cause { HasCause desk_kind (D.faults store.old.disk) (D.faults store.new.disk) result }
    ensures far { StaysNear (D.far store.old.disk) (D.far store.new.disk) (view_of store.old) (view_of store.new) }
{
    match confirm(&mut store.disk, &naming.part, total, stated) {
        Ok(Confirmed::Sum(digest)) => complete(store, id, total, naming, digest, at),
        Ok(Confirmed::Other { have, wanted }) => {
            let_go(naming);
            let answer = Ok(Finished::Mismatch { have, wanted });
            stop(store, id, Reason::FileHashMismatch, answer)
        }
        Ok(Confirmed::Short(have)) => {
            let_go(naming);
            let wanted = total;
            let answer = Ok(Finished::Short { have, wanted });
            stop(store, id, Reason::FileTooShort, answer)
        }
        Err(kind) => {
            let_go(naming);
            let answer = Err(DeskFault::File(kind));
            stop(store, id, reason_of(&Cause::File(kind)), answer)
        }
    }
}

/// Gives the file of an item its name.
fn complete<D: Disk, O: Origin>(
    store: &mut Store<D, O>,
    id: ItemId,
    total: u64,
    naming: Naming,
    digest: [u8; 32],
    at: u64,
) -> Result<Finished, DeskFault>
    requires store { IsStore D.tells D.history store.old }
    requires whole { store.old.broken ≡ false }
    requires ending { IsEnding D.tells D.history (view_of store.old) id total digest }
    requires naming { IsNaming (view_of store.old) id total naming }
    ensures store { IsStore D.tells D.history store.new }
    ensures keeps { Keeps D.tells D.history (λ o. said_of (O.says o)) (view_of store.old) (view_of store.new) }
    ensures makes { CompleteMakes (view_of store.old) (view_of store.new) id total digest at result }
    ensures reads { D.tells → result ≡ Ok finished.Complete → bytes_at (now (D.history store.new.disk)) naming.target ≡ bytes_at (now (D.history store.old.disk)) naming.part }
    ensures beside { D.tells → Besides (IsPartOrNameOf (view_of store.new) id) (D.history store.old.disk) (D.history store.new.disk) }
    ensures cause { HasCause desk_kind (D.faults store.old.disk) (D.faults store.new.disk) result }
    ensures far { StaysNear (D.far store.old.disk) (D.far store.new.disk) (view_of store.old) (view_of store.new) }
{
    match give_name(store, id, total, naming, digest, at) {
        Ok(()) => Ok(Finished::Complete),
        Err(kind) => Err(DeskFault::Journal(kind)),
    }
}

/// Interrupts an item, and then answers so; where the journal fails it answers that.
fn stop<D: Disk, O: Origin>(
    store: &mut Store<D, O>,
    id: ItemId,
    reason: Reason,
    answer: Result<Finished, DeskFault>,
) -> Result<Finished, DeskFault>
    requires store { IsStore D.tells D.history store.old }
    requires whole { store.old.broken ≡ false }
    requires lives { IsSome (life_in id.0 store.old.lives.items) }
    requires reason { (reason ≢ reasons.UserCanceled) × (reason ≢ reasons.Crash) }
    ensures store { IsStore D.tells D.history store.new }
    ensures keeps { Keeps D.tells D.history (λ o. said_of (O.says o)) (view_of store.old) (view_of store.new) }
    ensures makes { StopMakes (D.faults store.old.disk) (D.faults store.new.disk) (view_of store.old) (view_of store.new) id reason answer result }
    ensures beside { D.tells → KeepsFiles (D.history store.old.disk) (D.history store.new.disk) }
    ensures later { NoneFell (D.faults store.old.disk) (D.faults store.new.disk) }
    ensures far { StaysNear (D.far store.old.disk) (D.far store.new.disk) (view_of store.old) (view_of store.new) }
{
    match interrupt(store, id, reason) {
        Ok(()) => answer,
        Err(kind) => Err(DeskFault::Journal(kind)),
    }
}
