//! How a task ends.
ghost use Rattle.std.specs.Prelude.{◌≡◌};
ghost use Rattle.dm_report.specs.Said.{EndsAs, only};
ghost use Rattle.dm_report.specs.declared.verdict.Verdict.TheVariants as verdicts;
ghost use Rattle.dm_past.specs.Saying as texts;
ghost use Rattle.dm_past.specs.Working.{EndsWithText, archive_verdict, keeper_verdict};

use crate::lines::archived_line;
use dm_answers::DeskFault;
use dm_archive::ArchiveFault;
use dm_hist::KeeperFault;
use dm_report::{Ending, Verdict};
use dm_types::{NoMemory, Text};
use std::alloc::Global;

/// The ending with a text, or that memory was wanting for it.
pub(crate) fn with_text(alloc: Global, verdict: Verdict, text: Result<Text, NoMemory>) -> Ending
    ensures { EndsWithText verdict text result }
{
    match text {
        Ok(text) => Ending::new(alloc, verdict, text),
        Err(NoMemory) => Ending::fixed(alloc, Verdict::NoMemory),
    }
}

/// So many items were moved.
pub(crate) fn say_moved(alloc: Global, count: u32) -> Ending
    ensures { EndsAs (record { verdict = verdicts.Done; out = texts.archived_line count }) result }
{
    with_text(alloc, Verdict::Done, archived_line(alloc, count))
}

/// The history failed, or memory was wanting.
pub(crate) fn say_keeper(alloc: Global, fault: KeeperFault) -> Ending
    ensures { result ≡ only (keeper_verdict fault) }
{
    match fault {
        KeeperFault::Failed => Ending::fixed(alloc, Verdict::HistoryFailed),
        KeeperFault::NoMemory => Ending::fixed(alloc, Verdict::NoMemory),
    }
}

/// Not all items were moved.
pub(crate) fn say_archive(alloc: Global, fault: ArchiveFault) -> Ending
    ensures { result ≡ only (archive_verdict fault) }
{
    match fault {
        ArchiveFault::Keeper => Ending::fixed(alloc, Verdict::HistoryFailed),
        ArchiveFault::NoMemory => Ending::fixed(alloc, Verdict::NoMemory),
        ArchiveFault::Desk(DeskFault::Journal(kind)) => {
            Ending::fixed(alloc, Verdict::DiskFailed(kind))
        }
        ArchiveFault::Desk(_) => Ending::fixed(alloc, Verdict::NoMemory),
    }
}
