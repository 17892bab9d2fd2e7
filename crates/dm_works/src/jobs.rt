//! A job at the list is answered.
ghost use Rattle.dm_store.specs.Keeps.{IsDesk};
ghost use Rattle.dm_store.specs.Origin.{said_of};
ghost use Rattle.dm_service.specs.Api.{api_of, does_now};
ghost use Rattle.dm_works.specs.Answering.{Answered};
ghost use Rattle.dm_works.specs.Deciding.{FitsJob, seen_of};
ghost use Rattle.dm_works.specs.Moving.{Steps};

use crate::changing::decide;
use crate::deciding::Broken;
use dm_disk_model::Disk;
use dm_does::Job;
use dm_edge::Origin;
use dm_items::Desk;
use dm_response::{ApiReply, Trouble, trouble_reply};
use dm_service::{item_of, removed_id, reply_to};
use dm_types::NoMemory;
use std::alloc::Global;

/// Does a job at the list, and says what is replied.
pub(crate) fn do_job<D: Disk, O: Origin>(
    alloc: Global,
    desk: &mut Desk<D, O>,
    job: Job,
    now: u64,
) -> Result<ApiReply, NoMemory>
    requires fits { FitsJob job }
    requires desk { IsDesk D.tells D.history desk.old }
    ensures kept { IsDesk D.tells D.history desk.new }
    ensures answers { Answered D.faults (api_of (seen_of desk.old now) job (does_now job (seen_of desk.old now))) desk.old desk.new result }
    ensures steps { Steps D.tells D.history D.faults D.far (λ o. said_of (O.says o)) desk.old desk.new }
{
    let removed = removed_id(&job);
    match decide(desk, job, now) {
        Ok(course) => reply_to(alloc, removed, item_of(desk.items(), course), course),
        Err(Broken) => trouble_reply(alloc, Trouble::Broken),
    }
}
