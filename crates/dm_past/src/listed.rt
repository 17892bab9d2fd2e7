//! A command of the list, which a row of the history may answer.
ghost use Rattle.std.specs.Prelude.{◌≡◌, false};
ghost use Rattle.dm_brings.specs.Bringing.{brings_of};
ghost use Rattle.dm_store.specs.Keeps.{IsDesk};
ghost use Rattle.dm_store.specs.Origin.{said_of};
ghost use Rattle.dm_list.specs.Completing.{Completes};
ghost use Rattle.dm_list.specs.Reading.{FitsJob};
ghost use Rattle.dm_list.specs.Running.{world_of};
ghost use Rattle.dm_list.specs.Working.{HasNoLife};
ghost use Rattle.dm_past.specs.Listed.{ListedRuns, RunsEither, WorkedOrNot};
ghost use Rattle.dm_past.specs.Past.{past_of};

use crate::answering::answer;
use dm_disk_model::Disk;
use dm_does::Job;
use dm_edge::Net;
use dm_hist::Keeper;
use dm_items::Desk;
use dm_list::{Over, read_job, refuse, work};
use dm_report::Ending;
use dm_types::{LIMITS, Text, let_go};
use std::alloc::Global;

/// Does a job on a desk that was just opened, unless a row of the history answers it. `turns` and `at` are those
/// of `dm_list`'s `work`.
fn work_or_answer<D: Disk, N: Net, K: Keeper>(
    alloc: Global,
    desk: &mut Desk<D, N::O>,
    net: &mut N,
    keeper: &mut K,
    job: Job,
    turns: &[u8],
    at: u64,
) -> Ending
    requires fits { FitsJob job }
    requires whole { desk.old.broken ≡ false }
    requires desk { IsDesk D.tells D.history desk.old }
    requires idle { HasNoLife desk.old }
    requires origin { N.origin_of net.old ≡ desk.old.origin }
    ensures { WorkedOrNot D.tells K.tells D.history D.faults D.far (λ o. said_of (N.O.says o)) N.tells job at desk.old desk.new (N.closed net.old) (N.closed net.new) (N.faults net.old) (N.faults net.new)
        (past_of K.rows K.faults keeper.old) (past_of K.rows K.faults keeper.new) result }
{
    let answered = answer(alloc, desk.items(), keeper, &job);
    match answered {
        Some(ending) => {
            let_go(job);
            ending
        }
        None => work(alloc, desk, net, job, turns, at),
    }
}

/// Opens the list of a disk, and does the job on it, unless a row of the history answers it.
fn run_opened_or_answer<D: Disk, N: Net, K: Keeper>(
    alloc: Global,
    job: Job,
    turns: &[u8],
    disk: D,
    net: &mut N,
    keeper: &mut K,
    at: u64,
) -> Over<D>
    requires { FitsJob job }
    ensures { ListedRuns D.tells K.tells D.history D.faults D.far (λ o. said_of (N.O.says o)) N.tells (N.origin_of net.old) job at disk result.disk (N.closed net.old) (N.closed net.new) (N.faults net.old) (N.faults net.new)
        (past_of K.rows K.faults keeper.old) (past_of K.rows K.faults keeper.new) result.ending }
{
    keeper.rows_rise();
    match Desk::open(alloc, disk, net.origin(), LIMITS, at) {
        Ok(desk) => {
            let mut desk = desk;
            let ending = work_or_answer(alloc, &mut desk, net, keeper, job, turns, at);
            Over {
                ending,
                disk: desk.into_disk(),
            }
        }
        Err(fault) => {
            let_go(job);
            refuse(alloc, fault)
        }
    }
}

/// Does what the words ask of the list at this moment, in milliseconds since 1970.
pub(crate) fn run_words<D: Disk, N: Net, K: Keeper>(
    alloc: Global,
    words: &[Text],
    turns: &[u8],
    disk: D,
    net: &mut N,
    keeper: &mut K,
    at: u64,
) -> Over<D>
    ensures { RunsEither (Completes D.tells D.history (λ o. said_of (N.O.says o)) D.far D.faults N.tells (N.origin_of net.old) disk result.disk (N.closed net.old) (N.closed net.new) (N.faults net.old) (N.faults net.new) words.now at result.ending)
        (brings_of D.tells D.history (λ o. said_of (N.O.says o)) D.far D.faults N.tells) D.tells K.tells (said_of (N.O.says (N.origin_of net.old))) words.now at
        (world_of D.history D.faults (N.faults net.old) (N.closed net.old) disk) (world_of D.history D.faults (N.faults net.new) (N.closed net.new) result.disk)
        (past_of K.rows K.faults keeper.old) (past_of K.rows K.faults keeper.new) (D.far disk) (D.far result.disk) result.ending }
{
    match read_job(alloc, words) {
        Ok(job) => run_opened_or_answer(alloc, job, turns, disk, net, keeper, at),
        Err(verdict) => Over {
            ending: Ending::fixed(alloc, verdict),
            disk,
        },
    }
}
