ghost use Rattle.std.specs.Prelude.{◌≡◌, ◌<◌, false, IfOk, IsSome, OnOk, length, vec_capacity};
ghost use Rattle.dm_types.specs.Faults.{HasCause};
ghost use Rattle.dm_disk_model.specs.Moments.{KeepsFiles};
ghost use Rattle.dm_record.specs.Limits.{IsEntry};
ghost use Rattle.dm_record.specs.Spelling.{spelling_of};
ghost use Rattle.dm_item.specs.Fields.{no_bytes};
ghost use Rattle.dm_item.specs.Listing.{item_in};
ghost use Rattle.dm_journal.specs.Text.{FitsCell};
ghost use Rattle.dm_store.specs.Keeps.{Keeps, StaysNear};
ghost use Rattle.dm_store.specs.Origin.{said_of};
ghost use Rattle.dm_store.specs.Readied.{IsReadied};
ghost use Rattle.dm_store.specs.Store.{HasRoomOf, IsStore, view_of};
ghost use Rattle.dm_answers.specs.Begin.{BeginAnswers};
ghost use Rattle.dm_answers.specs.Faults.{desk_kind};
ghost use Rattle.dm_answers.specs.Running.{ItemWith};
ghost use Rattle.dm_begin.specs.declared.starting.Start.TheVariants as starts;
ghost use Rattle.dm_begin.specs.Start.{BeginChecks, HasLifeOf, IsRule, MayStart, PartHas, ThereAnswers, began_by, life_at, restart_by};

use crate::readying::{Beginning, empty_life, make_life, ready_body};
use crate::recording::{record_began, record_both, record_restart};
use crate::starting::{Start, may_begin, start_of};
use dm_answers::{Begun, DeskFault};
use dm_disk_model::Disk;
use dm_edge::Origin;
use dm_policy::{Cause, reason_of};
use dm_store::{Pass, Readied, Store, interrupt, ready};
use dm_types::{By, Entry, ItemId, NoMemory, Reason};

/// Begins an attempt. An item whose content is brought anew gets a new epoch first.
pub fn begin<D: Disk, O: Origin>(
    store: &mut Store<D, O>,
    id: ItemId,
    by: By,
    at: u64,
) -> Result<Begun, DeskFault>
    requires store { IsStore D.tells D.history store.old }
    ensures store { IsStore D.tells D.history store.new }
    ensures answers { BeginAnswers D.tells D.history D.faults (view_of store.old) (view_of store.new) id by at result }
    ensures keeps { Keeps D.tells D.history (λ o. said_of (O.says o)) (view_of store.old) (view_of store.new) }
    ensures beside { D.tells → KeepsFiles (D.history store.old.disk) (D.history store.new.disk) }
    ensures cause { HasCause desk_kind (D.faults store.old.disk) (D.faults store.new.disk) result }
    ensures far { StaysNear (D.far store.old.disk) (D.far store.new.disk) (view_of store.old) (view_of store.new) }
{
    if store.broken {
        return Err(DeskFault::Broken);
    }
    let start = match check_begin(store, id, by) {
        Ok(start) => start,
        Err(fault) => return Err(fault),
    };
    match start {
        Start::Anew(pass, because) => begin_anew(store, id, pass, because, by, at),
        Start::Fresh(pass) => begin_fresh(store, id, pass, by, at),
        Start::Kept(pass, wanted) => begin_kept(store, id, pass, wanted, by, at),
    }
}

/// How an attempt of the item begins, where it may.
fn check_begin<D: Disk, O: Origin>(
    store: &Store<D, O>,
    id: ItemId,
    by: By,
) -> Result<Start, DeskFault>
    requires store { IsStore D.tells D.history store.now }
    ensures { BeginChecks (view_of store.now) id by result }
{
    let Some(item) = store.items.get(id) else {
        return Err(DeskFault::NoItem(id));
    };
    if may_begin(by, item) {
        Ok(start_of(item))
    } else {
        Err(DeskFault::WrongState(item.phase))
    }
}

/// Begins an attempt of an item whose content is brought anew.
fn begin_anew<D: Disk, O: Origin>(
    store: &mut Store<D, O>,
    id: ItemId,
    pass: Pass,
    because: u8,
    by: By,
    at: u64,
) -> Result<Begun, DeskFault>
    requires store { IsStore D.tells D.history store.old }
    requires whole { store.old.broken ≡ false }
    requires start { ItemWith (view_of store.old) id (MayStart by (starts.Anew pass because)) }
    ensures store { IsStore D.tells D.history store.new }
    ensures answers { BeginAnswers D.tells D.history D.faults (view_of store.old) (view_of store.new) id by at result }
    ensures keeps { Keeps D.tells D.history (λ o. said_of (O.says o)) (view_of store.old) (view_of store.new) }
    ensures beside { D.tells → KeepsFiles (D.history store.old.disk) (D.history store.new.disk) }
    ensures cause { HasCause desk_kind (D.faults store.old.disk) (D.faults store.new.disk) result }
    ensures far { StaysNear (D.far store.old.disk) (D.far store.new.disk) (view_of store.old) (view_of store.new) }
{
    let Ok((readied, beginning)) = ready_anew(store, pass, because, by, at) else {
        return Err(DeskFault::NoMemory);
    };
    match record_restart(store, pass, because, readied) {
        Ok(()) => {}
        Err(kind) => return Err(DeskFault::Journal(kind)),
    }
    match record_began(store, pass, by, at, beginning) {
        Ok(()) => Ok(Begun::Fresh(pass)),
        Err(kind) => Err(DeskFault::Journal(kind)),
    }
}

/// All memory of an attempt whose content is brought anew. It changes nothing.
fn ready_anew<D: Disk, O: Origin>(
    store: &mut Store<D, O>,
    pass: Pass,
    because: u8,
    by: By,
    at: u64,
) -> Result<(Readied, Beginning), NoMemory>
    requires store { IsStore D.tells D.history store.old }
    requires rule { IsRule because }
    ensures store { IsStore D.tells D.history store.new }
    ensures same { view_of store.new ≡ view_of store.old }
    ensures room { OnOk result (HasRoomOf 5 store.new) }
    ensures place { OnOk result (length store.new.lives.items < vec_capacity store.new.lives) }
    ensures readied { IfOk result (λ both. IsReadied store.new.items (restart_by pass because) both.0) }
    ensures is { IfOk result (λ both. IsEntry (began_by pass by at)) }
    ensures body { IfOk result (λ both. both.1.body ≡ spelling_of (began_by pass by at)) }
    ensures size { IfOk result (λ both. FitsCell both.1.body) }
    ensures life { IfOk result (λ both. both.1.life ≡ life_at pass.id pass.epoch no_bytes) }
{
    let beginning = ready_empty(store, pass, by, at)?;
    match ready_restart(store, pass, because) {
        Ok(readied) => Ok((readied, beginning)),
        Err(NoMemory) => Err(NoMemory),
    }
}

/// All memory of an attempt that begins with nothing saved. It changes nothing.
fn ready_empty<D: Disk, O: Origin>(
    store: &mut Store<D, O>,
    pass: Pass,
    by: By,
    at: u64,
) -> Result<Beginning, NoMemory>
    requires store { IsStore D.tells D.history store.old }
    ensures store { IsStore D.tells D.history store.new }
    ensures same { view_of store.new ≡ view_of store.old }
    ensures room { OnOk result (HasRoomOf 5 store.new) }
    ensures place { OnOk result (length store.new.lives.items < vec_capacity store.new.lives) }
    ensures is { IfOk result (λ beginning. IsEntry (began_by pass by at)) }
    ensures body { IfOk result (λ beginning. beginning.body ≡ spelling_of (began_by pass by at)) }
    ensures size { IfOk result (λ beginning. FitsCell beginning.body) }
    ensures life { IfOk result (λ beginning. beginning.life ≡ life_at pass.id pass.epoch no_bytes) }
{
    let body = ready_body(store, pass, by, at)?;
    match empty_life(store.alloc, pass.id, pass.epoch) {
        Ok(life) => Ok(Beginning { body, life }),
        Err(NoMemory) => Err(NoMemory),
    }
}

/// All memory of the entry by which a content is brought anew.
fn ready_restart<D: Disk, O: Origin>(
    store: &Store<D, O>,
    pass: Pass,
    because: u8,
) -> Result<Readied, NoMemory>
    requires { IsRule because }
    ensures { IfOk result (IsReadied store.now.items (restart_by pass because)) }
{
    let entry = Entry::Restarted {
        id: pass.id,
        epoch: pass.epoch,
        because,
    };
    ready(store, &entry)
}

/// All memory of an attempt that begins in the item's epoch. It changes nothing.
fn ready_began<D: Disk, O: Origin>(
    store: &mut Store<D, O>,
    id: ItemId,
    pass: Pass,
    by: By,
    at: u64,
) -> Result<Beginning, NoMemory>
    requires store { IsStore D.tells D.history store.old }
    requires there { IsSome (item_in id.0 store.old.items.items) }
    ensures store { IsStore D.tells D.history store.new }
    ensures same { view_of store.new ≡ view_of store.old }
    ensures room { OnOk result (HasRoomOf 5 store.new) }
    ensures place { OnOk result (length store.new.lives.items < vec_capacity store.new.lives) }
    ensures is { IfOk result (λ beginning. IsEntry (began_by pass by at)) }
    ensures body { IfOk result (λ beginning. beginning.body ≡ spelling_of (began_by pass by at)) }
    ensures size { IfOk result (λ beginning. FitsCell beginning.body) }
    ensures life { IfOk result (λ beginning. HasLifeOf (view_of store.new) id beginning.life) }
{
    let body = ready_body(store, pass, by, at)?;
    let Some(item) = store.items.get(id) else {
        unreachable!();
    };
    let life = make_life(store.alloc, item.id, item.epoch, &item.slices, item.total)?;
    Ok(Beginning { body, life })
}

/// Begins an attempt whose content is to be asked for from the start.
fn begin_fresh<D: Disk, O: Origin>(
    store: &mut Store<D, O>,
    id: ItemId,
    pass: Pass,
    by: By,
    at: u64,
) -> Result<Begun, DeskFault>
    requires store { IsStore D.tells D.history store.old }
    requires whole { store.old.broken ≡ false }
    requires start { ItemWith (view_of store.old) id (MayStart by (starts.Fresh pass)) }
    ensures store { IsStore D.tells D.history store.new }
    ensures answers { BeginAnswers D.tells D.history D.faults (view_of store.old) (view_of store.new) id by at result }
    ensures keeps { Keeps D.tells D.history (λ o. said_of (O.says o)) (view_of store.old) (view_of store.new) }
    ensures beside { D.tells → KeepsFiles (D.history store.old.disk) (D.history store.new.disk) }
    ensures cause { HasCause desk_kind (D.faults store.old.disk) (D.faults store.new.disk) result }
    ensures far { StaysNear (D.far store.old.disk) (D.far store.new.disk) (view_of store.old) (view_of store.new) }
{
    let Ok(beginning) = ready_began(store, id, pass, by, at) else {
        return Err(DeskFault::NoMemory);
    };
    match record_began(store, pass, by, at, beginning) {
        Ok(()) => Ok(Begun::Fresh(pass)),
        Err(kind) => Err(DeskFault::Journal(kind)),
    }
}

/// Begins an attempt that goes on, where its part has so many bytes.
fn begin_kept<D: Disk, O: Origin>(
    store: &mut Store<D, O>,
    id: ItemId,
    pass: Pass,
    wanted: u64,
    by: By,
    at: u64,
) -> Result<Begun, DeskFault>
    requires store { IsStore D.tells D.history store.old }
    requires whole { store.old.broken ≡ false }
    requires start { ItemWith (view_of store.old) id (MayStart by (starts.Kept pass wanted)) }
    ensures store { IsStore D.tells D.history store.new }
    ensures answers { BeginAnswers D.tells D.history D.faults (view_of store.old) (view_of store.new) id by at result }
    ensures keeps { Keeps D.tells D.history (λ o. said_of (O.says o)) (view_of store.old) (view_of store.new) }
    ensures beside { D.tells → KeepsFiles (D.history store.old.disk) (D.history store.new.disk) }
    ensures cause { HasCause desk_kind (D.faults store.old.disk) (D.faults store.new.disk) result }
    ensures far { StaysNear (D.far store.old.disk) (D.far store.new.disk) (view_of store.old) (view_of store.new) }
{
    let Ok(beginning) = ready_began(store, id, pass, by, at) else {
        return Err(DeskFault::NoMemory);
    };
    begin_looked(store, id, pass, wanted, by, at, beginning)
}

/// The same with all memory. The part is looked at before anything is recorded.
fn begin_looked<D: Disk, O: Origin>(
    store: &mut Store<D, O>,
    id: ItemId,
    pass: Pass,
    wanted: u64,
    by: By,
    at: u64,
    beginning: Beginning,
) -> Result<Begun, DeskFault>
    requires store { IsStore D.tells D.history store.old }
    requires whole { store.old.broken ≡ false }
    requires start { ItemWith (view_of store.old) id (MayStart by (starts.Kept pass wanted)) }
    requires is { IsEntry (began_by pass by at) }
    requires body { beginning.body ≡ spelling_of (began_by pass by at) }
    requires size { FitsCell beginning.body }
    requires life { HasLifeOf (view_of store.old) id beginning.life }
    requires room { HasRoomOf 5 store.old }
    requires place { length store.old.lives.items < vec_capacity store.old.lives }
    ensures store { IsStore D.tells D.history store.new }
    ensures answers { BeginAnswers D.tells D.history D.faults (view_of store.old) (view_of store.new) id by at result }
    ensures keeps { Keeps D.tells D.history (λ o. said_of (O.says o)) (view_of store.old) (view_of store.new) }
    ensures beside { D.tells → KeepsFiles (D.history store.old.disk) (D.history store.new.disk) }
    ensures cause { HasCause desk_kind (D.faults store.old.disk) (D.faults store.new.disk) result }
    ensures far { StaysNear (D.far store.old.disk) (D.far store.new.disk) (view_of store.old) (view_of store.new) }
{
    match store.disk.length(&beginning.life.part) {
        Ok(Some(have)) => begin_there(store, id, pass, have, wanted, by, at, beginning),
        Ok(None) => match record_both(store, pass, by, at, beginning, Reason::FileTooShort) {
            Ok(()) => Ok(Begun::Short { have: 0, wanted }),
            Err(kind) => Err(DeskFault::Journal(kind)),
        },
        Err(fault) => {
            let reason = reason_of(&Cause::File(fault.0));
            match record_both(store, pass, by, at, beginning, reason) {
                Ok(()) => Err(DeskFault::File(fault.0)),
                Err(kind) => Err(DeskFault::Journal(kind)),
            }
        }
    }
}

/// The same where the part has `have` bytes.
fn begin_there<D: Disk, O: Origin>(
    store: &mut Store<D, O>,
    id: ItemId,
    pass: Pass,
    have: u64,
    wanted: u64,
    by: By,
    at: u64,
    beginning: Beginning,
) -> Result<Begun, DeskFault>
    requires store { IsStore D.tells D.history store.old }
    requires whole { store.old.broken ≡ false }
    requires start { ItemWith (view_of store.old) id (MayStart by (starts.Kept pass wanted)) }
    requires found { D.tells → PartHas D.history (view_of store.old) id have }
    requires is { IsEntry (began_by pass by at) }
    requires body { beginning.body ≡ spelling_of (began_by pass by at) }
    requires size { FitsCell beginning.body }
    requires life { HasLifeOf (view_of store.old) id beginning.life }
    requires room { HasRoomOf 5 store.old }
    requires place { length store.old.lives.items < vec_capacity store.old.lives }
    ensures store { IsStore D.tells D.history store.new }
    ensures answers { ThereAnswers (view_of store.old) (view_of store.new) pass have wanted by at result }
    ensures keeps { Keeps D.tells D.history (λ o. said_of (O.says o)) (view_of store.old) (view_of store.new) }
    ensures beside { D.tells → KeepsFiles (D.history store.old.disk) (D.history store.new.disk) }
    ensures cause { HasCause desk_kind (D.faults store.old.disk) (D.faults store.new.disk) result }
    ensures far { StaysNear (D.far store.old.disk) (D.far store.new.disk) (view_of store.old) (view_of store.new) }
{
    match record_began(store, pass, by, at, beginning) {
        Ok(()) => {}
        Err(kind) => return Err(DeskFault::Journal(kind)),
    }
    if have >= wanted {
        return Ok(Begun::Continue(pass));
    }
    match interrupt(store, pass.id, Reason::FileTooShort) {
        Ok(()) => Ok(Begun::Short { have, wanted }),
        Err(kind) => Err(DeskFault::Journal(kind)),
    }
}
