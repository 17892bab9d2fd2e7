ghost use Rattle.std.specs.Prelude.{◌≡◌, ◌≤◌, ◌^◌, Bool, false, Some, IfErr, IfOk, IfSome, IsSome, OnErr, OnOk};
ghost use Rattle.std.specs.Option.{option_copied, option_map};
ghost use Rattle.dm_types.specs.Faults.{HasCause};
ghost use Rattle.dm_disk_model.specs.Moments.{KeepsFiles};
ghost use Rattle.dm_item.specs.Lawful.{History};
ghost use Rattle.dm_store.specs.Keeps.{HoldsOf, IsDesk, Keeps, StaysNear};
ghost use Rattle.dm_store.specs.Origin.{said_of};
ghost use Rattle.dm_hist.specs.Rows.{AreRows, with_row};
ghost use Rattle.dm_hist.specs.Shown.{is_over as over, row_of_item as row_made};
ghost use Rattle.dm_archive.specs.Faults.{disk_kind, history_kind};
ghost use Rattle.dm_archive.specs.Leaving.{GoesAt, IsOutside, LeaveAnswers, MoveAnswers, moved, next_over};
ghost use Rattle.dm_archive.specs.Moving.{ArchiveAnswers};
ghost use Rattle.dm_archive.specs.Stops.{EachStop, ShowsEachOnce};

use crate::ArchiveFault;
use crate::fault::desk_fault;
use dm_disk_model::Disk;
use dm_edge::Origin;
use dm_hist::{Keeper, KeeperFault, Row, row_of_item};
use dm_items::Desk;
use dm_types::{Item, ItemId, NoMemory, Phase};
use std::alloc::Global;

/// Moves each complete or cancelled item to the history, by rising id: its row is kept, and only then does
/// the item leave the list. It answers how many were moved. What was moved before a fault stays moved.
pub fn archive_all<D: Disk, O: Origin, K: Keeper>(
    alloc: Global,
    desk: &mut Desk<D, O>,
    keeper: &mut K,
) -> Result<u32, ArchiveFault>
    ensures kept { IsDesk D.tells D.history desk.new }
    ensures answers { ArchiveAnswers K.tells desk.old desk.new (K.rows keeper.old) (K.rows keeper.new) result }
    ensures stops { D.tells → K.tells → desk.old.broken ≡ false
        → (good : Bool) (before : History) → HoldsOf good (said_of (O.says desk.old.origin)) D.history desk.old before
        → EachStop (ShowsEachOnce good (said_of (O.says desk.old.origin)) desk.old.items.items (K.rows keeper.old))
        (D.history desk.old.disk) (K.rows keeper.old) (D.history desk.new.disk) (K.rows keeper.new) }
    ensures keeps { Keeps D.tells D.history (λ o. said_of (O.says o)) desk.old desk.new }
    ensures beside { D.tells → KeepsFiles (D.history desk.old.disk) (D.history desk.new.disk) }
    ensures cause { HasCause disk_kind (D.faults desk.old.disk) (D.faults desk.new.disk) result }
    ensures history { HasCause history_kind (K.faults keeper.old) (K.faults keeper.new) result }
    ensures far { StaysNear (D.far desk.old.disk) (D.far desk.new.disk) desk.old desk.new }
{
    keeper.rows_rise();
    let before = desk.items().count();
    'moves: loop {
        match move_next(alloc, desk, keeper) {
            Ok(true) => {}
            Ok(false) => return Ok(before - desk.items().count()),
            Err(fault) => return Err(fault),
        }
    }
}

/// Moves the first item that goes to the history, and says whether there was one.
fn move_next<D: Disk, O: Origin, K: Keeper>(
    alloc: Global,
    desk: &mut Desk<D, O>,
    keeper: &mut K,
) -> Result<bool, ArchiveFault>
    requires kept { IsDesk D.tells D.history desk.old }
    ensures kept { IsDesk D.tells D.history desk.new }
    ensures answers { MoveAnswers K.tells desk.old desk.new (K.rows keeper.old) (K.rows keeper.new) result }
    ensures rising { K.tells → AreRows (K.rows keeper.old) → AreRows (K.rows keeper.new) }
    ensures keeps { Keeps D.tells D.history (λ o. said_of (O.says o)) desk.old desk.new }
    ensures beside { D.tells → KeepsFiles (D.history desk.old.disk) (D.history desk.new.disk) }
    ensures cause { HasCause disk_kind (D.faults desk.old.disk) (D.faults desk.new.disk) result }
    ensures history { HasCause history_kind (K.faults keeper.old) (K.faults keeper.new) result }
    ensures far { StaysNear (D.far desk.old.disk) (D.far desk.new.disk) desk.old desk.new }
{
    match next_row(alloc, desk.items().items()) {
        Ok(Some(row)) => match move_row(desk, keeper, &row) {
            Ok(()) => Ok(true),
            Err(fault) => Err(fault),
        },
        Ok(None) => Ok(false),
        Err(NoMemory) => Err(ArchiveFault::NoMemory),
    }
}

fn is_over(phase: Phase) -> bool
    ensures { result ≡ over phase }
{
    match phase {
        Phase::Complete | Phase::Cancelled => true,
        Phase::Waiting
        | Phase::Running
        | Phase::Paused
        | Phase::Finishing
        | Phase::Interrupted(_) => false,
    }
}

/// The first item that goes to the history.
fn first_over(items: &[Item]) -> Option<&Item>
    ensures { option_copied result ≡ next_over items.now }
{
    items.iter().find(|item| is_over(item.phase))
}

/// The row of the first item that goes to the history.
fn next_row(alloc: Global, items: &[Item]) -> Result<Option<Row>, NoMemory>
    ensures found { IfOk result (λ found. found ≡ option_map row_made (next_over items.now)) }
    ensures some { OnErr result (IsSome (next_over items.now)) }
{
    match first_over(items) {
        Some(item) => match row_of_item(alloc, item) {
            Ok(row) => Ok(Some(row)),
            Err(NoMemory) => Err(NoMemory),
        },
        None => Ok(None),
    }
}

/// Keeps the row of the first item that goes, and then lets the item go.
fn move_row<D: Disk, O: Origin, K: Keeper>(
    desk: &mut Desk<D, O>,
    keeper: &mut K,
    row: &Row,
) -> Result<(), ArchiveFault>
    requires kept { IsDesk D.tells D.history desk.old }
    requires next { Some row.now ≡ option_map row_made (next_over desk.old.items.items) }
    ensures kept { IsDesk D.tells D.history desk.new }
    ensures answers { MoveAnswers K.tells desk.old desk.new (K.rows keeper.old) (K.rows keeper.new) (moved result) }
    ensures rising { K.tells → AreRows (K.rows keeper.new) }
    ensures keeps { Keeps D.tells D.history (λ o. said_of (O.says o)) desk.old desk.new }
    ensures beside { D.tells → KeepsFiles (D.history desk.old.disk) (D.history desk.new.disk) }
    ensures cause { HasCause disk_kind (D.faults desk.old.disk) (D.faults desk.new.disk) result }
    ensures history { HasCause history_kind (K.faults keeper.old) (K.faults keeper.new) result }
    ensures far { StaysNear (D.far desk.old.disk) (D.far desk.new.disk) desk.old desk.new }
{
    match put(keeper, row) {
        Ok(()) => leave(desk, row.id),
        Err(fault) => Err(fault),
    }
}

/// Keeps a row.
fn put<K: Keeper>(keeper: &mut K, row: &Row) -> Result<(), ArchiveFault>
    requires id { 1 ≤ row.now.id.0 }
    requires total { IfSome row.now.total (λ total. total ≤ 2 ^ 40) }
    ensures put { K.tells → OnOk result (K.rows keeper.new ≡ with_row row.now (K.rows keeper.old)) }
    ensures same { K.tells → OnErr result (K.rows keeper.new ≡ K.rows keeper.old) }
    ensures rising { K.tells → AreRows (K.rows keeper.new) }
    ensures outside { IfErr result IsOutside }
    ensures cause { HasCause history_kind (K.faults keeper.old) (K.faults keeper.new) result }
{
    match keeper.put_row(row) {
        Ok(()) => Ok(()),
        Err(KeeperFault::Failed) => Err(ArchiveFault::Keeper),
        Err(KeeperFault::NoMemory) => Err(ArchiveFault::NoMemory),
    }
}

/// Lets an item go, of which the history has the row.
fn leave<D: Disk, O: Origin>(desk: &mut Desk<D, O>, id: ItemId) -> Result<(), ArchiveFault>
    requires kept { IsDesk D.tells D.history desk.old }
    requires goes { GoesAt id desk.old.items.items }
    ensures kept { IsDesk D.tells D.history desk.new }
    ensures answers { LeaveAnswers id desk.old desk.new result }
    ensures keeps { Keeps D.tells D.history (λ o. said_of (O.says o)) desk.old desk.new }
    ensures beside { D.tells → KeepsFiles (D.history desk.old.disk) (D.history desk.new.disk) }
    ensures cause { HasCause disk_kind (D.faults desk.old.disk) (D.faults desk.new.disk) result }
    ensures far { StaysNear (D.far desk.old.disk) (D.far desk.new.disk) desk.old desk.new }
{
    match desk.archived(id) {
        Ok(()) => Ok(()),
        Err(fault) => Err(desk_fault(fault)),
    }
}
