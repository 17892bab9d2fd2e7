// How a command of the list is run.
use dm_disk::MemoryDisk;
use dm_edge::{ClockList, NetScript, SinkMem};
use dm_list::{Ran, run_list};
use dm_run_bench::Runs;
use dm_types::Text;
use std::alloc::Global;

/// By `run_list`, where connections that are open side by side are read in turns.
pub(crate) struct ListRuns;

impl Runs for ListRuns {
    fn run(
        &self,
        alloc: Global,
        words: &[Text],
        disk: MemoryDisk,
        net: &mut NetScript,
        clock: &mut ClockList,
        out: &mut SinkMem,
        errs: &mut SinkMem,
    ) -> (u8, MemoryDisk) {
        let Ran { status, disk } = run_list(alloc, words, &[], disk, net, clock, out, errs);
        (status, disk)
    }
}
