//! A command, from its words to what is printed.
ghost use Rattle.dm_brings.specs.Bringing.{brings_of};
ghost use Rattle.dm_store.specs.Origin.{said_of};
ghost use Rattle.dm_list.specs.Completing.{Completes};
ghost use Rattle.dm_list.specs.Running.{ExplainsAll, RunsBy, world_of};
ghost use Rattle.dm_list.specs.Writing.{outputs_of};

use crate::job::read_job;
use crate::opening::Over;
use crate::printing::print_ending;
use crate::running::run_job;
use dm_disk_model::Disk;
use dm_edge::{Clock, Net, Sink};
use dm_report::Ending;
use dm_types::Text;
use std::alloc::Global;

/// A run that is over: the status that the program ends with, and the disk that was handed in.
#[derive(Debug, Drop)]
pub struct Ran<D> {
    pub status: u8,
    pub disk: D,
}

/// Does what the words ask at this moment, in milliseconds since 1970.
fn run_at<D: Disk, N: Net>(
    alloc: Global,
    words: &[Text],
    turns: &[u8],
    disk: D,
    net: &mut N,
    at: u64,
) -> Over<D>
    ensures { RunsBy (Completes D.tells D.history (λ o. said_of (N.O.says o)) D.far D.faults N.tells (N.origin_of net.old) disk result.disk (N.closed net.old) (N.closed net.new) (N.faults net.old) (N.faults net.new) words.now at result.ending)
        (brings_of D.tells D.history (λ o. said_of (N.O.says o)) D.far D.faults N.tells) D.tells (said_of (N.O.says (N.origin_of net.old))) words.now at
        (world_of D.history D.faults (N.faults net.old) (N.closed net.old) disk) (world_of D.history D.faults (N.faults net.new) (N.closed net.new) result.disk)
        (D.far disk) (D.far result.disk) result.ending }
{
    match read_job(alloc, words) {
        Ok(job) => run_job(alloc, job, turns, disk, net, at),
        Err(verdict) => Over {
            ending: Ending::fixed(alloc, verdict),
            disk,
        },
    }
}

/// One run: what the words ask is done, the disk is handed back, and what is printed and the status say how
/// it ended. The clock is asked once, before anything is done. `turns` says which open connection is read
/// next, and they go round where it is empty.
pub fn run_list<D: Disk, N: Net, C: Clock, S: Sink>(
    alloc: Global,
    words: &[Text],
    turns: &[u8],
    disk: D,
    net: &mut N,
    clock: &mut C,
    out: &mut S,
    errs: &mut S,
) -> Ran<D>
    ensures { ExplainsAll (record { disk = D.tells; clock = C.tells; outputs = S.tells }) D.history D.faults D.far (λ o. said_of (N.O.says o)) N.tells (N.origin_of net.old) words.now (C.next clock.old) disk result.disk
        (N.closed net.old) (N.closed net.new) (N.faults net.old) (N.faults net.new) (outputs_of S.written S.faults out.old errs.old) (outputs_of S.written S.faults out.new errs.new) result.status }
{
    let at = clock.now();
    let Over { ending, disk } = run_at(alloc, words, turns, disk, net, at);
    let status = print_ending(&ending, out, errs);
    Ran { status, disk }
}
