ghost use Rattle.std.specs.Prelude.{◌≡◌, ◌≢◌, ◌+◌, ◌<◌, ℕ, false, Some, IsSome, IsTrue, OnOk, length, slice_index_or, slice_set, vec_capacity, vec_len};
ghost use Rattle.dm_types.specs.Faults.{HasCause};
ghost use Rattle.dm_types.specs.declared.entry.Entry.TheVariants as entries;
ghost use Rattle.dm_types.specs.declared.reason.Reason.TheVariants as reasons;
ghost use Rattle.dm_disk_model.specs.Moments.{KeepsFiles};
ghost use Rattle.dm_record.specs.Limits.{IsEntry};
ghost use Rattle.dm_record.specs.Spelling.{spelling_of};
ghost use Rattle.dm_item.specs.Listing.{Admits, Listing, applied};
ghost use Rattle.dm_item.specs.Ready.{IsReady};
ghost use Rattle.dm_journal.specs.Text.{FitsCell};
ghost use Rattle.dm_store.specs.Becomes.{RecordMakes, kind_is};
ghost use Rattle.dm_store.specs.Keeps.{Keeps, RecordGoes, StandBehind, StaysNear};
ghost use Rattle.dm_store.specs.Lives.{AreAfter, IsLifeFor, changed_life, is_plain, life_in, lives_after, saved_life, with_life, without_life};
ghost use Rattle.dm_store.specs.Origin.{said_of};
ghost use Rattle.dm_store.specs.Store.{HasRoomBehind, HasRoomOf, IsStore, KeepsRoom, view_of};

use crate::{Life, Store, find_life};
use dm_disk_model::Disk;
use dm_edge::Origin;
use dm_item::Items;
use dm_record::write_broke;
use dm_types::{DiskKind, Entry, Item, ItemId, Reason, let_go};

/// Records an entry that adds no item and opens no list: first in the journal, and then in the list and
/// the lives. It takes no memory, since what the list wants of it was made ready before, and the life of
/// an attempt that begins too. Where the journal fails the desk is broken, and keeps the entry apart.
pub fn record<D: Disk, O: Origin>(
    store: &mut Store<D, O>,
    entry: Entry,
    body: &[u8],
    item: Option<Item>,
    life: Option<Life>,
) -> Result<(), DiskKind>
    requires store { IsStore D.tells D.history store.old }
    requires whole { store.old.broken ≡ false }
    requires plain { IsTrue (is_plain entry) }
    requires is { IsEntry entry }
    requires body { body.now ≡ spelling_of entry }
    requires size { FitsCell body.now }
    requires taken { Admits store.old.items entry }
    requires ready { IsReady store.old.items entry item }
    requires life { IsLifeFor entry (applied entry store.old.items) life }
    requires place { IsSome life → length store.old.lives.items < vec_capacity store.old.lives }
    requires stand { D.tells → StandBehind D.history (view_of store.old) entry }
    requires lives { AreAfter entry store.old.items store.old.lives.items }
    requires room { HasRoomBehind 0 entry store.old }
    ensures store { IsStore D.tells D.history store.new }
    ensures goes { RecordGoes D.tells D.history (λ o. said_of (O.says o)) (view_of store.old) (view_of store.new) entry }
    ensures makes { RecordMakes (view_of store.old) (view_of store.new) entry result }
    ensures room { OnOk result (KeepsRoom entry store.old store.new) }
    ensures beside { D.tells → KeepsFiles (D.history store.old.disk) (D.history store.new.disk) }
    ensures cause { HasCause kind_is (D.faults store.old.disk) (D.faults store.new.disk) result }
    ensures far { StaysNear (D.far store.old.disk) (D.far store.new.disk) (view_of store.old) (view_of store.new) }
{
    match store.journal.append(&mut store.disk, body) {
        Ok(()) => {
            store.items.put(&entry, item);
            follow(&mut store.lives, &entry, life);
            store.list.push_reserved(entry);
            Ok(())
        }
        Err(fault) => {
            let_go(item);
            let_go(life);
            store.broken = true;
            put_failed(&mut store.failed, entry);
            Err(fault.0)
        }
    }
}

/// Keeps the entry that failed.
pub fn put_failed(failed: &mut Option<Entry>, entry: Entry)
    ensures { failed.new ≡ Some entry }
{
    *failed = Some(entry);
}

/// Begins, saves or ends the attempt that an entry begins, saves or ends.
fn follow(lives: &mut Vec<Life>, entry: &Entry, life: Option<Life>)
    requires plain { IsTrue (is_plain entry.now) }
    requires place { IsSome life → length lives.old.items < vec_capacity lives.old }
    ensures { (items : Listing) → IsLifeFor entry.now items life → lives.new.items ≡ lives_after entry.now items lives.old.items }
{
    match entry {
        Entry::Began { .. } => add_life(lives, life),
        Entry::Progress { id, .. } => {
            let_go(life);
            save_life(lives, *id);
        }
        Entry::Broke { id, .. } => end_life(lives, *id, life),
        Entry::Paused { id } => end_life(lives, *id, life),
        Entry::Cancelled { id } => end_life(lives, *id, life),
        Entry::Finishing { id, .. } => end_life(lives, *id, life),
        Entry::Removed { id } => end_life(lives, *id, life),
        Entry::Archived { id } => end_life(lives, *id, life),
        Entry::Described { .. } => let_go(life),
        Entry::Restarted { .. } => let_go(life),
        Entry::Done { .. } => let_go(life),
        Entry::Asked { .. } => let_go(life),
        Entry::Added { .. } => unreachable!(),
        Entry::Reopened { .. } => unreachable!(),
        Entry::Restored { .. } => unreachable!(),
    }
}

/// Ends the attempt of an item, and begins none.
fn end_life(lives: &mut Vec<Life>, id: ItemId, life: Option<Life>)
    ensures { lives.new.items ≡ without_life id.0 lives.old.items }
{
    let_go(life);
    drop_life(lives, id);
}

pub fn add_life(lives: &mut Vec<Life>, life: Option<Life>)
    requires { IsSome life → length lives.old.items < vec_capacity lives.old }
    ensures { lives.new.items ≡ with_life life lives.old.items }
{
    match life {
        Some(life) => lives.push_reserved(life),
        None => {}
    }
}

pub fn save_life(lives: &mut Vec<Life>, id: ItemId)
    ensures { lives.new.items ≡ changed_life id.0 saved_life lives.old.items }
{
    match find_life(lives, id) {
        Some(place) => save_at(lives, place),
        None => {}
    }
}

pub fn save_at(lives: &mut Vec<Life>, place: usize)
    requires { place < vec_len lives.old }
    ensures { (d : Life) → lives.new.items ≡ slice_set lives.old.items place (saved_life (slice_index_or lives.old.items place d)) }
{
    lives[place].unsaved = 0;
}

pub fn drop_life(lives: &mut Vec<Life>, id: ItemId)
    ensures { lives.new.items ≡ without_life id.0 lives.old.items }
{
    lives.retain(|life| life.id.0 != id.0);
}

/// Interrupts an item that runs. It takes no memory.
pub fn interrupt<D: Disk, O: Origin>(
    store: &mut Store<D, O>,
    id: ItemId,
    reason: Reason,
) -> Result<(), DiskKind>
    requires store { IsStore D.tells D.history store.old }
    requires whole { store.old.broken ≡ false }
    requires lives { IsSome (life_in id.0 store.old.lives.items) }
    requires reason { (reason ≢ reasons.UserCanceled) × (reason ≢ reasons.Crash) }
    ensures store { IsStore D.tells D.history store.new }
    ensures keeps { Keeps D.tells D.history (λ o. said_of (O.says o)) (view_of store.old) (view_of store.new) }
    ensures makes { RecordMakes (view_of store.old) (view_of store.new) (entries.Broke id reason) result }
    ensures room { OnOk result ((count : ℕ) → HasRoomOf count store.old → HasRoomOf (count + 2) store.new) }
    ensures beside { D.tells → KeepsFiles (D.history store.old.disk) (D.history store.new.disk) }
    ensures cause { HasCause kind_is (D.faults store.old.disk) (D.faults store.new.disk) result }
    ensures far { StaysNear (D.far store.old.disk) (D.far store.new.disk) (view_of store.old) (view_of store.new) }
{
    let body = write_broke(id, reason);
    record(store, Entry::Broke { id, reason }, &body, None, None)
}
