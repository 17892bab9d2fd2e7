//! What a command says at its end, of the items as they are then.
ghost use Rattle.std.specs.Prelude.{◌≡◌, ◌++◌, List, IfOk, OnOk, map};
ghost use Rattle.std.specs.List.{concat};
ghost use Rattle.std.specs.Option.{option_copied};
ghost use Rattle.dm_report.specs.Said.{EndsAs};
ghost use Rattle.dm_report.specs.declared.verdict.Verdict.TheVariants as verdicts;
ghost use Rattle.dm_does.specs.declared.course.Course.TheVariants.{Ends};
ghost use Rattle.dm_report.specs.Texts.{item_line_of, item_text_of};
ghost use Rattle.dm_does.specs.Saying.{said_by, said_in, said_interrupted, said_of, shown, text_in};
ghost use Rattle.dm_list.specs.Working.{EndsWithText, SaysFailure};

use dm_does::{Course, Show};
use dm_item::Items;
use dm_report::{Ending, Verdict, csv_export, item_line, item_text, report_text};
use dm_types::{DiskKind, Item, NoMemory, Phase, Reason, Text};
use std::alloc::Global;

/// Adds the line of an item.
fn add_item_line(alloc: Global, text: &mut Text, item: &Item) -> Result<(), NoMemory>
    ensures { OnOk result (text.new ≡ text.old ++ item_line_of item.now) }
{
    let line = item_line(alloc, item)?;
    text.push_bytes(line.bytes())
}

/// The line of each item, in their order.
fn item_lines(alloc: Global, items: &[Item]) -> Result<Text, NoMemory>
    ensures { IfOk result (λ text. text ≡ concat (map item_line_of items.now)) }
{
    let mut text = Text::new(alloc);
    for item in items {
        add_item_line(alloc, &mut text, item)?;
    }
    Ok(text)
}

/// The line of an item that is there.
fn line_of(alloc: Global, item: Option<&Item>) -> Result<Text, NoMemory>
    ensures { IfOk result (λ text. text ≡ text_in item_line_of (option_copied item.entry)) }
{
    match item {
        Some(item) => item_line(alloc, item),
        None => Ok(Text::new(alloc)),
    }
}

/// The text of an item that is there.
fn text_of(alloc: Global, item: Option<&Item>) -> Result<Text, NoMemory>
    ensures { IfOk result (λ text. text ≡ text_in item_text_of (option_copied item.entry)) }
{
    match item {
        Some(item) => item_text(alloc, item),
        None => Ok(Text::new(alloc)),
    }
}

/// What goes to standard output.
fn shown(alloc: Global, items: &Items, show: Show) -> Result<Text, NoMemory>
    ensures { IfOk result (λ text. text ≡ shown items.now.items show) }
{
    match show {
        Show::Nothing => Ok(Text::new(alloc)),
        Show::Line(id) => line_of(alloc, items.get(id)),
        Show::Lines => item_lines(alloc, items.items()),
        Show::Whole(id) => text_of(alloc, items.get(id)),
        Show::Counts => report_text(alloc, items),
        Show::Records => csv_export(alloc, items),
    }
}

/// The ending with a text, or that memory was wanting for it.
fn with_text(alloc: Global, verdict: Verdict, text: Result<Text, NoMemory>) -> Ending
    ensures { EndsWithText verdict text result }
{
    match text {
        Ok(text) => Ending::new(alloc, verdict, text),
        Err(NoMemory) => Ending::fixed(alloc, Verdict::NoMemory),
    }
}

/// What is said of an interruption, with the item's line.
fn interrupted(alloc: Global, reason: Reason, item: &Item) -> Ending
    ensures { EndsAs (said_interrupted reason (item_line_of item.now)) result }
{
    match reason {
        Reason::NoMemory => Ending::fixed(alloc, Verdict::NoMemory),
        _ => with_text(alloc, Verdict::Interrupted(reason), item_line(alloc, item)),
    }
}

/// What is said of an item that was brought.
fn brought(alloc: Global, item: &Item) -> Ending
    ensures { EndsAs (said_in item.now.phase (item_line_of item.now)) result }
{
    match item.phase {
        Phase::Complete => with_text(alloc, Verdict::Done, item_line(alloc, item)),
        Phase::Interrupted(reason) => interrupted(alloc, reason, item),
        Phase::Waiting => Ending::fixed(alloc, Verdict::NoMemory),
        Phase::Running => Ending::fixed(alloc, Verdict::NoMemory),
        Phase::Paused => Ending::fixed(alloc, Verdict::NoMemory),
        Phase::Finishing => Ending::fixed(alloc, Verdict::NoMemory),
        Phase::Cancelled => Ending::fixed(alloc, Verdict::NoMemory),
    }
}

/// What is said of the item with the id that was to be brought.
fn brought_with(alloc: Global, item: Option<&Item>) -> Ending
    ensures { EndsAs (said_of (option_copied item.entry)) result }
{
    match item {
        Some(item) => brought(alloc, item),
        None => Ending::fixed(alloc, Verdict::NoMemory),
    }
}

/// What is said of a failed call on the disk. It takes no memory where nothing is to be printed besides.
fn say_failed(alloc: Global, items: &Items, kind: DiskKind, show: Show) -> Ending
    ensures says { EndsAs (record { verdict = verdicts.DiskFailed kind; out = shown items.now.items show }) result }
    ensures fails { SaysFailure (Ends (verdicts.DiskFailed kind) show) result }
{
    match show {
        Show::Nothing => Ending::fixed(alloc, Verdict::DiskFailed(kind)),
        _ => with_text(alloc, Verdict::DiskFailed(kind), shown(alloc, items, show)),
    }
}

/// What is said with a verdict.
fn say_end(alloc: Global, items: &Items, verdict: Verdict, show: Show) -> Ending
    ensures says { EndsAs (record { verdict = verdict; out = shown items.now.items show }) result }
    ensures fails { SaysFailure (Ends verdict show) result }
{
    match verdict {
        Verdict::DiskFailed(kind) => say_failed(alloc, items, kind, show),
        _ => with_text(alloc, verdict, shown(alloc, items, show)),
    }
}

/// What a command says that took this course, of the items at its end. Where memory is wanting for that it
/// is `NoMemory`, but a failed call on the disk is always told.
pub(crate) fn say(alloc: Global, items: &Items, course: Course) -> Ending
    ensures says { EndsAs (said_by items.now.items course) result }
    ensures fails { SaysFailure course result }
{
    match course {
        Course::Ends(verdict, show) => say_end(alloc, items, verdict, show),
        Course::Brings(id, _) => brought_with(alloc, items.get(id)),
    }
}
