//! A request is answered.
ghost use Rattle.std.specs.Prelude.{◌≡◌, IfOk};
ghost use Rattle.dm_hist.specs.Rows.{AreRows};
ghost use Rattle.dm_store.specs.Keeps.{IsDesk};
ghost use Rattle.dm_store.specs.Origin.{said_of};
ghost use Rattle.dm_service.specs.Replies.{page_by, report_by};
ghost use Rattle.dm_works.specs.Deciding.{FitsTask};
ghost use Rattle.dm_works.specs.Moving.{Steps};
ghost use Rattle.dm_works.specs.Requests.{AnswersOn};
ghost use Rattle.dm_works.specs.Serving.{AnswersTask, service_of};
ghost use Rattle.dm_works.specs.Showing.{ShowsTask};

use crate::jobs::do_job;
use crate::recalling::{add_free, archive, remove_either, show_rows};
use dm_call::{ApiRequest, CallFault, Window, read_call};
use dm_disk_model::Disk;
use dm_edge::Origin;
use dm_hist::Keeper;
use dm_items::Desk;
use dm_response::{ApiReply, Trouble, trouble_reply};
use dm_service::{Task, page_reply, report_reply, stop_reply, task_of};
use dm_types::NoMemory;
use std::alloc::Global;

/// Does what the request asks, and says what is replied. The moment is in milliseconds since 1970. Where memory is
/// wanting its entries may stand; it may be asked again.
pub fn answer<D: Disk, O: Origin, K: Keeper>(
    alloc: Global,
    desk: &mut Desk<D, O>,
    keeper: &mut K,
    request: &ApiRequest,
    now: u64,
) -> Result<ApiReply, NoMemory>
    ensures kept { IsDesk D.tells D.history desk.new }
    ensures answers { AnswersOn D.tells K.tells D.history D.faults (λ o. said_of (O.says o)) (service_of K.rows K.faults desk.old keeper.old) request.now now result (service_of K.rows K.faults desk.new keeper.new) }
    ensures steps { Steps D.tells D.history D.faults D.far (λ o. said_of (O.says o)) desk.old desk.new }
{
    keeper.rows_rise();
    let _items = desk.items();
    match read_call(alloc, request) {
        Ok(call) => do_task(alloc, desk, keeper, task_of(call), now),
        Err(CallFault::Refused(refusal)) => trouble_reply(alloc, Trouble::Refused(refusal)),
        Err(CallFault::NoMemory) => Err(NoMemory),
    }
}

fn do_task<D: Disk, O: Origin, K: Keeper>(
    alloc: Global,
    desk: &mut Desk<D, O>,
    keeper: &mut K,
    task: Task,
    now: u64,
) -> Result<ApiReply, NoMemory>
    requires fits { FitsTask task }
    requires desk { IsDesk D.tells D.history desk.old }
    requires rows { K.tells → AreRows (K.rows keeper.old) }
    ensures kept { IsDesk D.tells D.history desk.new }
    ensures answers { AnswersTask K.tells D.faults (service_of K.rows K.faults desk.old keeper.old) task now result (service_of K.rows K.faults desk.new keeper.new) }
    ensures shows { ShowsTask D.tells K.tells D.history (λ o. said_of (O.says o)) (service_of K.rows K.faults desk.old keeper.old) task (service_of K.rows K.faults desk.new keeper.new) }
    ensures steps { Steps D.tells D.history D.faults D.far (λ o. said_of (O.says o)) desk.old desk.new }
{
    match task {
        Task::Job(job) => do_job(alloc, desk, job, now),
        Task::Add(order) => add_free(alloc, desk, keeper, order, now),
        Task::Remove(id) => remove_either(alloc, desk, keeper, id, now),
        Task::Page(window) => show_page(alloc, desk, window),
        Task::Archive => archive(alloc, desk, keeper),
        Task::History(window) => show_rows(alloc, desk, keeper, window),
        Task::Report => show_report(alloc, desk),
        Task::Stop => stop_reply(alloc),
    }
}

/// Shows part of the list.
fn show_page<D: Disk, O: Origin>(
    alloc: Global,
    desk: &Desk<D, O>,
    window: Window,
) -> Result<ApiReply, NoMemory>
    ensures { IfOk result (λ reply. reply ≡ page_by desk.now.items.items window) }
{
    let list = desk.items();
    page_reply(alloc, list.items(), window)
}

/// Shows the report on the list.
fn show_report<D: Disk, O: Origin>(alloc: Global, desk: &Desk<D, O>) -> Result<ApiReply, NoMemory>
    ensures { IfOk result (λ reply. reply ≡ report_by desk.now.items.items) }
{
    report_reply(alloc, desk.items())
}
