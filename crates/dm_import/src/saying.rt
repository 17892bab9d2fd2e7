//! How an import ends.
ghost use Rattle.dm_list.specs.Working.{EndsWithText};
ghost use Rattle.dm_import.specs.Saying.{SaysSo};

use crate::lines::named_lines;
use dm_item::Items;
use dm_report::{Ending, Verdict};
use dm_shown::Named;
use dm_types::{NoMemory, Text};
use std::alloc::Global;

/// The ending with a text, or that memory was wanting for it.
fn with_text(alloc: Global, verdict: Verdict, text: Result<Text, NoMemory>) -> Ending
    ensures { EndsWithText verdict text result }
{
    match text {
        Ok(text) => Ending::new(alloc, verdict, text),
        Err(NoMemory) => Ending::fixed(alloc, Verdict::NoMemory),
    }
}

/// What is said at the end: the line of each item and row, of the items as they are then, unless a call failed
/// or memory was wanting.
pub(crate) fn say(alloc: Global, items: &Items, all: &[Named], verdict: Verdict) -> Ending
    ensures { SaysSo items.now.items all.now verdict result }
{
    match verdict {
        Verdict::DiskFailed(kind) => Ending::fixed(alloc, Verdict::DiskFailed(kind)),
        Verdict::HistoryFailed => Ending::fixed(alloc, Verdict::HistoryFailed),
        Verdict::NoMemory => Ending::fixed(alloc, Verdict::NoMemory),
        _ => with_text(alloc, verdict, named_lines(alloc, items, all)),
    }
}
