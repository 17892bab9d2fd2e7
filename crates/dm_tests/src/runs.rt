// How words are run.
use dm_cli::{Ran, run_words};
use dm_disk::MemoryDisk;
use dm_edge::{ClockList, NetScript, SinkMem};
use dm_run_bench::Runs;
use dm_types::Text;
use std::alloc::Global;

/// By the top call.
pub(crate) struct WordRuns;

impl Runs for WordRuns {
    fn run(
        &self,
        alloc: Global,
        words: &[Text],
        disk: MemoryDisk,
        net: &mut NetScript,
        clock: &mut ClockList,
        out: &mut SinkMem,
        errs: &mut SinkMem,
    ) -> (u8, MemoryDisk) {
        let Ran { status, disk } = run_words(alloc, words, disk, net, clock, out, errs);
        (status, disk)
    }
}
