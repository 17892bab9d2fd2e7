//! Requests of which the history is asked.
ghost use Rattle.std.specs.Prelude.{◌≡◌, ℕ, true, false, [], IfOk};
ghost use Rattle.dm_answers.specs.Add.{IsOrder};
ghost use Rattle.dm_store.specs.Keeps.{IsDesk};
ghost use Rattle.dm_store.specs.Origin.{said_of};
ghost use Rattle.dm_response.specs.Reply.{trouble_of};
ghost use Rattle.dm_service.specs.Recalls.{is_gone as gone};
ghost use Rattle.dm_service.specs.declared.task.Task.TheVariants as tasks;
ghost use Rattle.dm_works.specs.Moving.{Steps};
ghost use Rattle.dm_works.specs.Serving.{AnswersTask, service_of};
ghost use Rattle.dm_works.specs.Showing.{ShowsStops};
ghost use Rattle.dm_works.specs.Troubles.{archive_trouble as trouble_by_archive, keeper_trouble as trouble_by_keeper};

use crate::jobs::do_job;
use dm_answers::{DeskFault, Order};
use dm_archive::{ArchiveFault, archive_all};
use dm_call::Window;
use dm_disk_model::Disk;
use dm_does::Job;
use dm_edge::Origin;
use dm_hist::{Keeper, KeeperFault};
use dm_items::Desk;
use dm_response::{ApiReply, Trouble, trouble_reply};
use dm_service::{archived_reply, removed_reply, row_reply, rows_reply};
use dm_shown::{Named, find_named, shown_rows};
use dm_types::{ItemId, NoMemory};
use std::alloc::Global;

/// What is told where the history gives no answer.
fn trouble_of_keeper(fault: KeeperFault) -> Trouble
    ensures { result ≡ trouble_by_keeper fault }
{
    match fault {
        KeeperFault::Failed => Trouble::History,
        KeeperFault::NoMemory => Trouble::Memory,
    }
}

/// What is told where items couldn't be moved. Faults that no move gives are told as want of memory.
fn trouble_of_archive(fault: ArchiveFault) -> Trouble
    ensures { result ≡ trouble_by_archive fault }
{
    match fault {
        ArchiveFault::Keeper => Trouble::History,
        ArchiveFault::NoMemory => Trouble::Memory,
        ArchiveFault::Desk(DeskFault::Broken) => Trouble::Broken,
        ArchiveFault::Desk(DeskFault::Journal(_)) => Trouble::Disk,
        ArchiveFault::Desk(_) => Trouble::Memory,
    }
}

fn silence(alloc: Global, fault: KeeperFault) -> Result<ApiReply, NoMemory>
    ensures { IfOk result (λ reply. reply ≡ trouble_of (trouble_by_keeper fault)) }
{
    trouble_reply(alloc, trouble_of_keeper(fault))
}

/// Adds an item, where no row of the history has its word.
pub(crate) fn add_free<D: Disk, O: Origin, K: Keeper>(
    alloc: Global,
    desk: &mut Desk<D, O>,
    keeper: &mut K,
    order: Order,
    now: u64,
) -> Result<ApiReply, NoMemory>
    requires order { IsOrder order }
    requires desk { IsDesk D.tells D.history desk.old }
    ensures kept { IsDesk D.tells D.history desk.new }
    ensures answers { AnswersTask K.tells D.faults (service_of K.rows K.faults desk.old keeper.old) (tasks.Add order) now result (service_of K.rows K.faults desk.new keeper.new) }
    ensures rows { K.tells → K.rows keeper.new ≡ K.rows keeper.old }
    ensures steps { Steps D.tells D.history D.faults D.far (λ o. said_of (O.says o)) desk.old desk.new }
{
    match find_named(desk.items(), keeper, order.word.bytes()) {
        Ok(Some(Named::Row(row))) => row_reply(alloc, &row, order.address.text.bytes()),
        Ok(Some(Named::Item(_))) => do_job(alloc, desk, Job::Add(order), now),
        Ok(None) => do_job(alloc, desk, Job::Add(order), now),
        Err(fault) => silence(alloc, fault),
    }
}

/// Whether no item has the id.
fn is_gone<D: Disk, O: Origin>(desk: &Desk<D, O>, id: ItemId) -> bool
    ensures { result ≡ gone id.0 desk.now.items.items }
{
    match desk.view(id) {
        Some(_) => false,
        None => true,
    }
}

/// Drops the row of an id that no item has, where there is one.
fn remove_row<D: Disk, O: Origin, K: Keeper>(
    alloc: Global,
    desk: &mut Desk<D, O>,
    keeper: &mut K,
    id: ItemId,
    now: u64,
) -> Result<ApiReply, NoMemory>
    requires gone { gone id.0 desk.old.items.items ≡ true }
    requires desk { IsDesk D.tells D.history desk.old }
    ensures kept { IsDesk D.tells D.history desk.new }
    ensures answers { AnswersTask K.tells D.faults (service_of K.rows K.faults desk.old keeper.old) (tasks.Remove id) now result (service_of K.rows K.faults desk.new keeper.new) }
    ensures steps { Steps D.tells D.history D.faults D.far (λ o. said_of (O.says o)) desk.old desk.new }
{
    match keeper.drop_row(id) {
        Ok(true) => removed_reply(alloc, id),
        Ok(false) => do_job(alloc, desk, Job::Remove(id), now),
        Err(fault) => silence(alloc, fault),
    }
}

/// Removes an item, or else its row.
pub(crate) fn remove_either<D: Disk, O: Origin, K: Keeper>(
    alloc: Global,
    desk: &mut Desk<D, O>,
    keeper: &mut K,
    id: ItemId,
    now: u64,
) -> Result<ApiReply, NoMemory>
    requires desk { IsDesk D.tells D.history desk.old }
    ensures kept { IsDesk D.tells D.history desk.new }
    ensures answers { AnswersTask K.tells D.faults (service_of K.rows K.faults desk.old keeper.old) (tasks.Remove id) now result (service_of K.rows K.faults desk.new keeper.new) }
    ensures rows { gone id.0 desk.old.items.items ≡ false → K.rows keeper.new ≡ K.rows keeper.old }
    ensures steps { Steps D.tells D.history D.faults D.far (λ o. said_of (O.says o)) desk.old desk.new }
{
    if is_gone(desk, id) {
        remove_row(alloc, desk, keeper, id, now)
    } else {
        do_job(alloc, desk, Job::Remove(id), now)
    }
}

/// Moves each complete or cancelled item to the history.
pub(crate) fn archive<D: Disk, O: Origin, K: Keeper>(
    alloc: Global,
    desk: &mut Desk<D, O>,
    keeper: &mut K,
) -> Result<ApiReply, NoMemory>
    requires desk { IsDesk D.tells D.history desk.old }
    ensures kept { IsDesk D.tells D.history desk.new }
    ensures answers { (at : ℕ) → AnswersTask K.tells D.faults (service_of K.rows K.faults desk.old keeper.old) tasks.Archive at result (service_of K.rows K.faults desk.new keeper.new) }
    ensures shows { ShowsStops D.tells K.tells D.history (λ o. said_of (O.says o)) (service_of K.rows K.faults desk.old keeper.old) (service_of K.rows K.faults desk.new keeper.new) [] }
    ensures steps { Steps D.tells D.history D.faults D.far (λ o. said_of (O.says o)) desk.old desk.new }
{
    match archive_all(alloc, desk, keeper) {
        Ok(count) => archived_reply(alloc, count),
        Err(fault) => trouble_reply(alloc, trouble_of_archive(fault)),
    }
}

/// Shows part of the history.
pub(crate) fn show_rows<D: Disk, O: Origin, K: Keeper>(
    alloc: Global,
    desk: &Desk<D, O>,
    keeper: &mut K,
    window: Window,
) -> Result<ApiReply, NoMemory>
    ensures answers { (at : ℕ) → AnswersTask K.tells D.faults (service_of K.rows K.faults desk.now keeper.old) (tasks.History window) at result (service_of K.rows K.faults desk.now keeper.new) }
    ensures rows { K.tells → K.rows keeper.new ≡ K.rows keeper.old }
{
    match shown_rows(alloc, desk.items(), keeper, window.after, window.limit) {
        Ok(rows) => rows_reply(alloc, rows.items()),
        Err(fault) => silence(alloc, fault),
    }
}
