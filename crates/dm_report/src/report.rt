//! The report on all items.
ghost use Rattle.std.specs.Prelude.{◌≡◌, ◌≤◌, ◌<◌, ◌*◌, ◌^◌, ◌++◌, length, IfOk, OnOk};
ghost use Rattle.dm_report.specs.Report.{bytes_of, codes_end, count_for, count_in, has_code, in_state, reason_line, reasons_below, report_of, state_line, states_of, word_of};

use crate::line::{add_field, add_number_line};
use crate::values::number_text;
use dm_item::Items;
use dm_slice::covered;
use dm_types::{Item, NoMemory, Phase, Text};
use std::alloc::Global;

/// Above every reason's number.
const CODES_END: u16 = 61;

/// How many items are in each state, a line each in the order `waiting`, `running`, `paused`, `finishing`, `complete`,
/// `cancelled`, `interrupted`; `reason <code> <count>` for each reason that an interrupted item has, by rising number;
/// and `bytes` with the bytes that all items have received.
pub fn report_text(alloc: Global, items: &Items) -> Result<Text, NoMemory>
    ensures { IfOk result (λ text. text ≡ report_of items.now.items) }
{
    // The ids are different, so there are fewer than 2^32 items.
    let _count = items.count();
    let items = items.items();
    let mut text = state_lines(alloc, items)?;
    text.push_bytes(reason_lines(alloc, items)?.bytes())?;
    add_number_line(alloc, &mut text, b"bytes", received(items))?;
    Ok(text)
}

/// A line for each state.
fn state_lines(alloc: Global, items: &[Item]) -> Result<Text, NoMemory>
    ensures { IfOk result (λ text. text ≡ states_of items.now) }
{
    let mut text = Text::new(alloc);
    add_state(alloc, &mut text, items, b"waiting")?;
    add_state(alloc, &mut text, items, b"running")?;
    add_state(alloc, &mut text, items, b"paused")?;
    add_state(alloc, &mut text, items, b"finishing")?;
    add_state(alloc, &mut text, items, b"complete")?;
    add_state(alloc, &mut text, items, b"cancelled")?;
    add_state(alloc, &mut text, items, b"interrupted")?;
    Ok(text)
}

/// Adds the line of a state.
fn add_state(alloc: Global, text: &mut Text, items: &[Item], word: &[u8]) -> Result<(), NoMemory>
    ensures { OnOk result (text.new ≡ text.old ++ state_line items.now word.now) }
{
    add_number_line(alloc, text, word, count_in(items, word) as u128)
}

/// How many items are in the state of this word.
fn count_in(items: &[Item], word: &[u8]) -> usize
    ensures { result ≡ count_in items.now word.now }
{
    items.iter().filter(|item| is_in(item, word)).count()
}

fn is_in(item: &Item, word: &[u8]) -> bool
    ensures { result ≡ in_state word.now item.now }
{
    word_of(item.phase) == word
}

/// The word of a state, without a number.
fn word_of(phase: Phase) -> &'static [u8]
    ensures { result.now ≡ word_of phase }
{
    match phase {
        Phase::Waiting => b"waiting",
        Phase::Running => b"running",
        Phase::Paused => b"paused",
        Phase::Finishing => b"finishing",
        Phase::Complete => b"complete",
        Phase::Cancelled => b"cancelled",
        Phase::Interrupted(_) => b"interrupted",
    }
}

/// A line for each reason that an interrupted item has, by rising number.
fn reason_lines(alloc: Global, items: &[Item]) -> Result<Text, NoMemory>
    ensures { IfOk result (λ text. text ≡ reasons_below items.now codes_end) }
{
    let mut text = Text::new(alloc);
    for code in 0..CODES_END {
        add_reason(alloc, &mut text, code, count_for(items, code))?;
    }
    Ok(text)
}

/// Adds the line of a reason that so many items have.
fn add_reason(alloc: Global, text: &mut Text, code: u16, count: usize) -> Result<(), NoMemory>
    ensures { OnOk result (text.new ≡ text.old ++ reason_line code count) }
{
    if count == 0 {
        return Ok(());
    }
    add_field(text, b"reason")?;
    let code = number_text(alloc, u128::from(code))?;
    add_number_line(alloc, text, code.bytes(), count as u128)
}

/// How many items are interrupted for the reason of this number.
fn count_for(items: &[Item], code: u16) -> usize
    ensures { result ≡ count_for items.now code }
{
    items
        .iter()
        .filter(|item| has_code(item.phase, code))
        .count()
}

fn has_code(phase: Phase, code: u16) -> bool
    ensures { result ≡ has_code code phase }
{
    match phase {
        Phase::Interrupted(reason) => reason.code() == code,
        _ => false,
    }
}

/// The bytes that the items have received.
fn received(items: &[Item]) -> u128
    requires { length items.now < 2 ^ 32 }
    ensures { result ≡ bytes_of items.now }
{
    let mut sum = 0;
    for item in items {
        sum += covered(item.slices.items());
    }
    sum
}
