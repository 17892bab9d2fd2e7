//! A run of a job over a disk and a net.
ghost use Rattle.dm_list.specs.Reading.{FitsJob};
ghost use Rattle.dm_list.specs.Running.{JobRuns};
ghost use Rattle.dm_store.specs.Origin.{said_of};

use crate::opening::{Over, refuse};
use crate::working::work;
use dm_disk_model::Disk;
use dm_does::Job;
use dm_edge::Net;
use dm_items::Desk;
use dm_types::{LIMITS, let_go};
use std::alloc::Global;

/// Opens the list of a disk, and does the job on it. `turns` and `at` are those of `work`.
pub fn run_job<D: Disk, N: Net>(
    alloc: Global,
    job: Job,
    turns: &[u8],
    disk: D,
    net: &mut N,
    at: u64,
) -> Over<D>
    requires { FitsJob job }
    ensures { JobRuns D.tells D.history D.faults D.far (λ o. said_of (N.O.says o)) N.tells (N.origin_of net.old) job at disk result.disk (N.closed net.old) (N.closed net.new) (N.faults net.old) (N.faults net.new) result.ending }
{
    match Desk::open(alloc, disk, net.origin(), LIMITS, at) {
        Ok(desk) => {
            let mut desk = desk;
            let ending = work(alloc, &mut desk, net, job, turns, at);
            Over {
                ending,
                disk: desk.into_disk(),
            }
        }
        Err(fault) => {
            let_go(job);
            refuse(alloc, fault)
        }
    }
}
