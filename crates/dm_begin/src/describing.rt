ghost use Rattle.std.specs.Prelude.{◌≡◌, false, None, Ok, IfOk, IsTrue, OnOk};
ghost use Rattle.dm_types.specs.Faults.{HasCause};
ghost use Rattle.dm_types.specs.Name.{IsPart};
ghost use Rattle.dm_disk_model.specs.Beside.{Besides};
ghost use Rattle.dm_disk_model.specs.Moments.{KeepsFiles};
ghost use Rattle.dm_item.specs.Listing.{Admits, applied};
ghost use Rattle.dm_record.specs.Limits.{IsSpellable};
ghost use Rattle.dm_store.specs.Becomes.{RecordMakes, kind_is};
ghost use Rattle.dm_store.specs.Keeps.{Keeps, RecordGoes, StandBehind, StaysNear};
ghost use Rattle.dm_store.specs.Lives.{AreAfter, IsLifeFor, is_plain};
ghost use Rattle.dm_store.specs.Origin.{said_of};
ghost use Rattle.dm_store.specs.Readied.{IsReadied};
ghost use Rattle.dm_store.specs.Saving.{SaveMakes, save_kind};
ghost use Rattle.dm_store.specs.Store.{HasRoomBehind, HasRoomOf, IsStore, view_of};
ghost use Rattle.dm_answers.specs.declared.answer.Named.TheVariants as named;
ghost use Rattle.dm_answers.specs.Describe.{DescribeAnswers, IsSilent, IsTelling, described_by};
ghost use Rattle.dm_answers.specs.Faults.{desk_kind};
ghost use Rattle.dm_answers.specs.Reads.{IsEmptied, PartReads};
ghost use Rattle.dm_answers.specs.Running.{RunsWith};
ghost use Rattle.dm_begin.specs.Told.{DescribeChecks, EntryAnswers, IsDescribing, NameAnswers};
ghost use Rattle.dm_begin.specs.Naming.{AreTaken};

use crate::making::renew;
use crate::naming::taken_names;
use crate::passing::fault_of;
use dm_answers::{DeskFault, Named, Told};
use dm_disk_model::{Disk, NameList, NamesFault};
use dm_edge::Origin;
use dm_name::{NameFault, unique_name};
use dm_policy::{Cause, reason_of};
use dm_store::{
    Pass, Readied, SaveFault, Store, interrupt, life_of, live_at, make_room, ready, record,
};
use dm_types::{DiskKind, Entry, ItemId, NoMemory, Reason, Text, let_go};

/// Takes what the first reply told: the name, the total, the key. The part is made.
pub fn describe<D: Disk, O: Origin>(
    store: &mut Store<D, O>,
    pass: &Pass,
    told: Told,
) -> Result<Named, DeskFault>
    requires store { IsStore D.tells D.history store.old }
    requires telling { IsTelling pass.now told }
    ensures store { IsStore D.tells D.history store.new }
    ensures answers { DescribeAnswers D.tells D.history D.faults (view_of store.old) (view_of store.new) pass.now told result }
    ensures keeps { Keeps D.tells D.history (λ o. said_of (O.says o)) (view_of store.old) (view_of store.new) }
    ensures beside { D.tells → Besides IsPart (D.history store.old.disk) (D.history store.new.disk) }
    ensures reads { D.tells → result ≡ Ok named.Named → PartReads D.history (view_of store.old) (view_of store.new) pass.now.id IsEmptied }
    ensures cause { HasCause desk_kind (D.faults store.old.disk) (D.faults store.new.disk) result }
    ensures far { StaysNear (D.far store.old.disk) (D.far store.new.disk) (view_of store.old) (view_of store.new) }
{
    if store.broken {
        return Err(DeskFault::Broken);
    }
    match check_describe(store, pass) {
        Ok(()) => describe_item(store, pass, told),
        Err(fault) => Err(fault),
    }
}

/// Whether the attempt's first reply may be told.
fn check_describe<D: Disk, O: Origin>(store: &Store<D, O>, pass: &Pass) -> Result<(), DeskFault>
    requires store { IsStore D.tells D.history store.now }
    requires whole { store.now.broken ≡ false }
    ensures { DescribeChecks (view_of store.now) pass.now result }
{
    match live_at(store, pass.id, pass.attempt) {
        Ok(_) => {}
        Err(gone) => return Err(fault_of(gone)),
    }
    let Some(item) = store.items.get(pass.id) else {
        unreachable!();
    };
    if item.key.is_some() {
        Err(DeskFault::WrongState(item.phase))
    } else {
        Ok(())
    }
}

/// The same where the first reply may be told.
fn describe_item<D: Disk, O: Origin>(
    store: &mut Store<D, O>,
    pass: &Pass,
    told: Told,
) -> Result<Named, DeskFault>
    requires store { IsStore D.tells D.history store.old }
    requires whole { store.old.broken ≡ false }
    requires silent { RunsWith (view_of store.old) pass.now.id pass.now.attempt IsSilent }
    requires telling { IsTelling pass.now told }
    ensures store { IsStore D.tells D.history store.new }
    ensures answers { DescribeAnswers D.tells D.history D.faults (view_of store.old) (view_of store.new) pass.now told result }
    ensures keeps { Keeps D.tells D.history (λ o. said_of (O.says o)) (view_of store.old) (view_of store.new) }
    ensures beside { D.tells → Besides IsPart (D.history store.old.disk) (D.history store.new.disk) }
    ensures reads { D.tells → result ≡ Ok named.Named → PartReads D.history (view_of store.old) (view_of store.new) pass.now.id IsEmptied }
    ensures cause { HasCause desk_kind (D.faults store.old.disk) (D.faults store.new.disk) result }
    ensures far { StaysNear (D.far store.old.disk) (D.far store.new.disk) (view_of store.old) (view_of store.new) }
{
    match taken_names(store.alloc, &mut store.disk, store.items.items()) {
        Ok(taken) => give_name(store, pass, told, &taken),
        Err(NamesFault::Disk(kind)) => {
            match interrupt(store, pass.id, reason_of(&Cause::File(kind))) {
                Ok(()) => Err(DeskFault::File(kind)),
                Err(failed) => Err(DeskFault::Journal(failed)),
            }
        }
        Err(NamesFault::NoMemory) => Err(DeskFault::NoMemory),
    }
}

/// Gives the item the first free form of the wish, or interrupts it where all are taken.
fn give_name<D: Disk, O: Origin>(
    store: &mut Store<D, O>,
    pass: &Pass,
    told: Told,
    taken: &NameList,
) -> Result<Named, DeskFault>
    requires store { IsStore D.tells D.history store.old }
    requires whole { store.old.broken ≡ false }
    requires silent { RunsWith (view_of store.old) pass.now.id pass.now.attempt IsSilent }
    requires telling { IsTelling pass.now told }
    requires taken { AreTaken D.tells (D.history store.old.disk) store.old.items.items taken.now }
    ensures store { IsStore D.tells D.history store.new }
    ensures answers { NameAnswers D.faults (view_of store.old) (view_of store.new) pass.now told taken.now result }
    ensures keeps { Keeps D.tells D.history (λ o. said_of (O.says o)) (view_of store.old) (view_of store.new) }
    ensures beside { D.tells → Besides IsPart (D.history store.old.disk) (D.history store.new.disk) }
    ensures reads { D.tells → result ≡ Ok named.Named → PartReads D.history (view_of store.old) (view_of store.new) pass.now.id IsEmptied }
    ensures cause { HasCause desk_kind (D.faults store.old.disk) (D.faults store.new.disk) result }
    ensures far { StaysNear (D.far store.old.disk) (D.far store.new.disk) (view_of store.old) (view_of store.new) }
{
    match unique_name(store.alloc, told.wish.bytes(), taken) {
        Ok(name) => match describe_as(store, pass, told, name) {
            Ok(()) => Ok(Named::Named),
            Err(fault) => Err(fault),
        },
        Err(NameFault::AllTaken) => match interrupt(store, pass.id, Reason::FileFailed) {
            Ok(()) => Ok(Named::AllTaken),
            Err(kind) => Err(DeskFault::Journal(kind)),
        },
        Err(NameFault::NoMemory) => Err(DeskFault::NoMemory),
    }
}

/// Records what was told, with this name.
fn describe_as<D: Disk, O: Origin>(
    store: &mut Store<D, O>,
    pass: &Pass,
    told: Told,
    name: Text,
) -> Result<(), DeskFault>
    requires store { IsStore D.tells D.history store.old }
    requires whole { store.old.broken ≡ false }
    requires spelled { IsSpellable (described_by pass.now told name) }
    requires describing { IsDescribing D.tells D.history (view_of store.old) pass.now.id (described_by pass.now told name) }
    ensures store { IsStore D.tells D.history store.new }
    ensures answers { EntryAnswers D.faults (view_of store.old) (view_of store.new) pass.now.id (described_by pass.now told name) result }
    ensures keeps { Keeps D.tells D.history (λ o. said_of (O.says o)) (view_of store.old) (view_of store.new) }
    ensures beside { D.tells → Besides IsPart (D.history store.old.disk) (D.history store.new.disk) }
    ensures reads { D.tells → OnOk result (PartReads D.history (view_of store.old) (view_of store.new) pass.now.id IsEmptied) }
    ensures cause { HasCause desk_kind (D.faults store.old.disk) (D.faults store.new.disk) result }
    ensures far { StaysNear (D.far store.old.disk) (D.far store.new.disk) (view_of store.old) (view_of store.new) }
{
    match ready_described(store, pass, told, name) {
        Ok((entry, readied)) => match make_described(store, pass.id, entry, readied) {
            Ok(()) => Ok(()),
            Err(SaveFault::File(kind)) => Err(DeskFault::File(kind)),
            Err(SaveFault::Journal(kind)) => Err(DeskFault::Journal(kind)),
        },
        Err(NoMemory) => Err(DeskFault::NoMemory),
    }
}

/// The entry of what was told, and all its memory. It changes nothing but the room of the list.
fn ready_described<D: Disk, O: Origin>(
    store: &mut Store<D, O>,
    pass: &Pass,
    told: Told,
    name: Text,
) -> Result<(Entry, Readied), NoMemory>
    requires store { IsStore D.tells D.history store.old }
    requires spelled { IsSpellable (described_by pass.now told name) }
    ensures store { IsStore D.tells D.history store.new }
    ensures same { view_of store.new ≡ view_of store.old }
    ensures entry { IfOk result (λ both. both.0 ≡ described_by pass.now told name) }
    ensures readied { IfOk result (λ both. IsReadied store.new.items both.0 both.1) }
    ensures room { OnOk result (HasRoomOf 1 store.new) }
{
    let entry = described(pass, told, name);
    match ready_roomy(store, &entry) {
        Ok(readied) => Ok((entry, readied)),
        Err(NoMemory) => Err(NoMemory),
    }
}

/// The entry of what was told.
fn described(pass: &Pass, told: Told, name: Text) -> Entry
    ensures { result ≡ described_by pass.now told name }
{
    let Told {
        key,
        last_address,
        total,
        wish: _,
        modified,
    } = told;
    Entry::Described {
        id: pass.id,
        key,
        last_address,
        total,
        name,
        modified,
    }
}

/// All memory of an entry, and room for it in the list. It changes nothing else.
fn ready_roomy<D: Disk, O: Origin>(
    store: &mut Store<D, O>,
    entry: &Entry,
) -> Result<Readied, NoMemory>
    requires store { IsStore D.tells D.history store.old }
    requires spelled { IsSpellable entry.now }
    ensures store { IsStore D.tells D.history store.new }
    ensures same { view_of store.new ≡ view_of store.old }
    ensures readied { IfOk result (IsReadied store.new.items entry.now) }
    ensures room { OnOk result (HasRoomOf 1 store.new) }
{
    make_room(store, 1)?;
    ready(store, entry)
}

/// Makes the part of the attempt anew, and then records what was told. Where its part fails the item is
/// interrupted. It takes no memory.
fn make_described<D: Disk, O: Origin>(
    store: &mut Store<D, O>,
    id: ItemId,
    entry: Entry,
    readied: Readied,
) -> Result<(), SaveFault>
    requires store { IsStore D.tells D.history store.old }
    requires whole { store.old.broken ≡ false }
    requires describing { IsDescribing D.tells D.history (view_of store.old) id entry }
    requires readied { IsReadied store.old.items entry readied }
    requires room { HasRoomOf 1 store.old }
    ensures store { IsStore D.tells D.history store.new }
    ensures makes { SaveMakes (D.faults store.old.disk) (D.faults store.new.disk) (view_of store.old) (view_of store.new) id entry result }
    ensures keeps { Keeps D.tells D.history (λ o. said_of (O.says o)) (view_of store.old) (view_of store.new) }
    ensures beside { D.tells → Besides IsPart (D.history store.old.disk) (D.history store.new.disk) }
    ensures reads { D.tells → OnOk result (PartReads D.history (view_of store.old) (view_of store.new) id IsEmptied) }
    ensures cause { HasCause save_kind (D.faults store.old.disk) (D.faults store.new.disk) result }
    ensures far { StaysNear (D.far store.old.disk) (D.far store.new.disk) (view_of store.old) (view_of store.new) }
{
    let Some(life) = life_of(&store.lives, id) else {
        unreachable!();
    };
    match renew(&mut store.disk, &life.part) {
        Ok(()) => match record_described(store, entry, readied) {
            Ok(()) => Ok(()),
            Err(kind) => Err(SaveFault::Journal(kind)),
        },
        Err(fault) => {
            let_go(entry);
            let_go(readied);
            match interrupt(store, id, reason_of(&Cause::File(fault.0))) {
                Ok(()) => Err(SaveFault::File(fault.0)),
                Err(kind) => Err(SaveFault::Journal(kind)),
            }
        }
    }
}

/// Records what was told. It takes no memory.
fn record_described<D: Disk, O: Origin>(
    store: &mut Store<D, O>,
    entry: Entry,
    readied: Readied,
) -> Result<(), DiskKind>
    requires store { IsStore D.tells D.history store.old }
    requires whole { store.old.broken ≡ false }
    requires plain { IsTrue (is_plain entry) }
    requires taken { Admits store.old.items entry }
    requires readied { IsReadied store.old.items entry readied }
    requires life { IsLifeFor entry (applied entry store.old.items) None }
    requires stand { D.tells → StandBehind D.history (view_of store.old) entry }
    requires lives { AreAfter entry store.old.items store.old.lives.items }
    requires room { HasRoomBehind 0 entry store.old }
    ensures store { IsStore D.tells D.history store.new }
    ensures goes { RecordGoes D.tells D.history (λ o. said_of (O.says o)) (view_of store.old) (view_of store.new) entry }
    ensures makes { RecordMakes (view_of store.old) (view_of store.new) entry result }
    ensures beside { D.tells → KeepsFiles (D.history store.old.disk) (D.history store.new.disk) }
    ensures cause { HasCause kind_is (D.faults store.old.disk) (D.faults store.new.disk) result }
    ensures far { StaysNear (D.far store.old.disk) (D.far store.new.disk) (view_of store.old) (view_of store.new) }
{
    let Readied { body, item } = readied;
    record(store, entry, body.bytes(), item, None)
}
