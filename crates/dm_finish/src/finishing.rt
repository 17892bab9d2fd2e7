ghost use Rattle.std.specs.Prelude.{◌≡◌, false, IfOk, IfSome, IsSome, IsSomeAnd, Ok, OnOk};
ghost use Rattle.dm_types.specs.Faults.{HasCause};
ghost use Rattle.dm_types.specs.declared.entry.Entry.TheVariants as entries;
ghost use Rattle.dm_disk_model.specs.Beside.{Besides};
ghost use Rattle.dm_item.specs.Listing.{item_in};
ghost use Rattle.dm_part.specs.Laws.{files_place};
ghost use Rattle.dm_store.specs.Keeps.{Keeps, StaysNear};
ghost use Rattle.dm_store.specs.Lives.{IsLifeOf, part_place};
ghost use Rattle.dm_store.specs.Origin.{said_of};
ghost use Rattle.dm_store.specs.Readied.{IsReadied};
ghost use Rattle.dm_store.specs.Store.{HasRoomOf, IsStore, view_of};
ghost use Rattle.dm_answers.specs.declared.answer.Finished.TheVariants as finished;
ghost use Rattle.dm_answers.specs.Faults.{desk_kind};
ghost use Rattle.dm_answers.specs.Finish.{FinishAnswers, HasMoved, total_of};
ghost use Rattle.dm_answers.specs.Reads.{IsPartOrNameOf};
ghost use Rattle.dm_answers.specs.Running.{RunsWith};
ghost use Rattle.dm_finish.specs.Finishing.{FinishChecked, IsFullAt, IsReadyEnding};

use crate::{Naming, close};
use dm_answers::{DeskFault, Finished};
use dm_disk_model::{Area, Disk, Place};
use dm_edge::Origin;
use dm_land::{Prepared, declined, prepare_saving, save_if, unsaved};
use dm_part::place_of;
use dm_store::{Life, Pass, Store, life_of, live_at, make_room, ready};
use dm_types::{Entry, Item, ItemId, NoMemory, let_go};
use std::alloc::Global;

/// What ends an attempt, with its memory: what saves it, what names its file, and the stated digest.
#[derive(Drop)]
pub struct Ending {
    pub saving: Option<Prepared>,
    pub naming: Naming,
    pub stated: Option<[u8; 32]>,
}

/// Ends an attempt that has brought all: saves, takes the sum, and gives the file its name.
pub fn finish<D: Disk, O: Origin>(
    store: &mut Store<D, O>,
    pass: &Pass,
    at: u64,
) -> Result<Finished, DeskFault>
    requires store { IsStore D.tells D.history store.old }
    ensures store { IsStore D.tells D.history store.new }
    ensures answers { FinishAnswers D.tells D.history D.faults (view_of store.old) (view_of store.new) pass.now at result }
    ensures keeps { Keeps D.tells D.history (λ o. said_of (O.says o)) (view_of store.old) (view_of store.new) }
    ensures beside { D.tells → Besides (IsPartOrNameOf (view_of store.new) pass.now.id) (D.history store.old.disk) (D.history store.new.disk) }
    ensures reads { D.tells → result ≡ Ok finished.Complete → RunsWith (view_of store.old) pass.now.id pass.now.attempt (HasMoved D.history (view_of store.old) (view_of store.new)) }
    ensures cause { HasCause desk_kind (D.faults store.old.disk) (D.faults store.new.disk) result }
    ensures far { StaysNear (D.far store.old.disk) (D.far store.new.disk) (view_of store.old) (view_of store.new) }
{
    if store.broken {
        return Err(DeskFault::Broken);
    }
    match check_finish(store, pass, at) {
        Ok(total) => finish_full(store, pass, at, total),
        Err(fault) => Err(fault),
    }
}

/// The total of an attempt of which all has come, or why it may not be finished now.
fn check_finish<D: Disk, O: Origin>(
    store: &Store<D, O>,
    pass: &Pass,
    _at: u64,
) -> Result<u64, DeskFault>
    requires store { IsStore D.tells D.history store.now }
    requires whole { store.now.broken ≡ false }
    ensures { FinishChecked D.tells D.history D.faults (view_of store.now) pass.now _at result }
{
    match live_at(store, pass.id, pass.attempt) {
        Ok(_) => {}
        Err(gone) => return Err(declined(gone)),
    }
    let Some(item) = store.items.get(pass.id) else {
        unreachable!();
    };
    let Some(life) = life_of(&store.lives, pass.id) else {
        unreachable!();
    };
    if item.key.is_none() {
        return Err(DeskFault::WrongState(item.phase));
    }
    let total = total_of(item, life);
    match life.cover.first_missing(total) {
        Some(place) => Err(DeskFault::NotNext(place)),
        None => Ok(total),
    }
}

/// The known total, or the live cover's end where none is known.
fn total_of(item: &Item, life: &Life) -> u64
    requires { IsLifeOf item.now life.now }
    ensures { result ≡ total_of item.now life.now }
{
    match item.total {
        Some(total) => total,
        None => match life.cover.next_place(0) {
            Some(end) => end,
            None => unreachable!(),
        },
    }
}

/// Ends an attempt of which all has come. All memory is taken before the first call on the disk.
fn finish_full<D: Disk, O: Origin>(
    store: &mut Store<D, O>,
    pass: &Pass,
    at: u64,
    total: u64,
) -> Result<Finished, DeskFault>
    requires store { IsStore D.tells D.history store.old }
    requires whole { store.old.broken ≡ false }
    requires full { RunsWith (view_of store.old) pass.now.id pass.now.attempt (IsFullAt total) }
    ensures store { IsStore D.tells D.history store.new }
    ensures answers { FinishAnswers D.tells D.history D.faults (view_of store.old) (view_of store.new) pass.now at result }
    ensures keeps { Keeps D.tells D.history (λ o. said_of (O.says o)) (view_of store.old) (view_of store.new) }
    ensures beside { D.tells → Besides (IsPartOrNameOf (view_of store.new) pass.now.id) (D.history store.old.disk) (D.history store.new.disk) }
    ensures reads { D.tells → result ≡ Ok finished.Complete → RunsWith (view_of store.old) pass.now.id pass.now.attempt (HasMoved D.history (view_of store.old) (view_of store.new)) }
    ensures cause { HasCause desk_kind (D.faults store.old.disk) (D.faults store.new.disk) result }
    ensures far { StaysNear (D.far store.old.disk) (D.far store.new.disk) (view_of store.old) (view_of store.new) }
{
    match prepare_ending(store, pass.id, total) {
        Ok(ending) => end_full(store, pass, at, total, ending),
        Err(NoMemory) => Err(DeskFault::NoMemory),
    }
}

/// Takes all memory of an attempt's end.
fn prepare_ending<D: Disk, O: Origin>(
    store: &mut Store<D, O>,
    id: ItemId,
    total: u64,
) -> Result<Ending, NoMemory>
    requires store { IsStore D.tells D.history store.old }
    requires whole { store.old.broken ≡ false }
    requires told { IsSomeAnd (item_in id.0 store.old.items.items) (λ item. IsSome item.name) }
    ensures store { IsStore D.tells D.history store.new }
    ensures same { view_of store.new ≡ view_of store.old }
    ensures ok { IfOk result (IsReadyEnding (view_of store.new) id total) }
    ensures room { OnOk result (HasRoomOf 1 store.new) }
{
    make_room(store, 1)?;
    let saving = prepare_saving(store, id)?;
    let Some(item) = store.items.get(id) else {
        unreachable!();
    };
    let stated = item.digest;
    match prepare_naming(store, id, total, item) {
        Ok(naming) => Ok(Ending {
            saving,
            naming,
            stated,
        }),
        Err(NoMemory) => Err(NoMemory),
    }
}

/// Takes all memory of the naming of an item's file.
fn prepare_naming<D: Disk, O: Origin>(
    store: &Store<D, O>,
    id: ItemId,
    total: u64,
    item: &Item,
) -> Result<Naming, NoMemory>
    requires { IsSome item.now.name }
    ensures readied { IfOk result (λ naming. IsReadied store.now.items (entries.Finishing id total) naming.readied) }
    ensures part { IfOk result (λ naming. naming.part ≡ part_place id.0 item.now.epoch.0) }
    ensures target { IfOk result (λ naming. IfSome item.now.name (λ name. naming.target ≡ files_place name)) }
{
    let (part, target) = places_of(store.alloc, id, item)?;
    match ready(store, &Entry::Finishing { id, total }) {
        Ok(readied) => Ok(Naming {
            readied,
            part,
            target,
        }),
        Err(NoMemory) => Err(NoMemory),
    }
}

/// Where the content of an item lies, and where its file gets its name.
fn places_of(alloc: Global, id: ItemId, item: &Item) -> Result<(Place, Place), NoMemory>
    requires { IsSome item.now.name }
    ensures part { IfOk result (λ places. places.0 ≡ part_place id.0 item.now.epoch.0) }
    ensures target { IfOk result (λ places. IfSome item.now.name (λ name. places.1 ≡ files_place name)) }
{
    let part = place_of(alloc, id, item.epoch)?;
    match target_of(alloc, item) {
        Ok(target) => Ok((part, target)),
        Err(NoMemory) => Err(NoMemory),
    }
}

/// Where the file of an item gets its name.
fn target_of(alloc: Global, item: &Item) -> Result<Place, NoMemory>
    requires { IsSome item.now.name }
    ensures { IfOk result (λ place. IfSome item.now.name (λ name. place ≡ files_place name)) }
{
    match &item.name {
        Some(name) => match name.copy(alloc) {
            Ok(name) => Ok(Place {
                area: Area::Files,
                name,
            }),
            Err(NoMemory) => Err(NoMemory),
        },
        None => unreachable!(),
    }
}

/// Saves what was landed, and then closes.
fn end_full<D: Disk, O: Origin>(
    store: &mut Store<D, O>,
    pass: &Pass,
    at: u64,
    total: u64,
    ending: Ending,
) -> Result<Finished, DeskFault>
    requires store { IsStore D.tells D.history store.old }
    requires whole { store.old.broken ≡ false }
    requires full { RunsWith (view_of store.old) pass.now.id pass.now.attempt (IsFullAt total) }
    requires ready { IsReadyEnding (view_of store.old) pass.now.id total ending }
    requires room { HasRoomOf 1 store.old }
    ensures store { IsStore D.tells D.history store.new }
    ensures answers { FinishAnswers D.tells D.history D.faults (view_of store.old) (view_of store.new) pass.now at result }
    ensures keeps { Keeps D.tells D.history (λ o. said_of (O.says o)) (view_of store.old) (view_of store.new) }
    ensures beside { D.tells → Besides (IsPartOrNameOf (view_of store.new) pass.now.id) (D.history store.old.disk) (D.history store.new.disk) }
    ensures reads { D.tells → result ≡ Ok finished.Complete → RunsWith (view_of store.old) pass.now.id pass.now.attempt (HasMoved D.history (view_of store.old) (view_of store.new)) }
    ensures cause { HasCause desk_kind (D.faults store.old.disk) (D.faults store.new.disk) result }
    ensures far { StaysNear (D.far store.old.disk) (D.far store.new.disk) (view_of store.old) (view_of store.new) }
{
    let Ending {
        saving,
        naming,
        stated,
    } = ending;
    match save_if(store, pass.id, saving) {
        Ok(()) => close(store, pass.id, total, stated, naming, at),
        Err(fault) => {
            let_go(naming);
            Err(unsaved(fault))
        }
    }
}
