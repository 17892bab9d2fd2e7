//! The lines of rows, and how many items were moved.
ghost use Rattle.std.specs.Prelude.{◌≡◌, ◌++◌, IfOk, OnOk, cond, map};
ghost use Rattle.std.specs.List.{concat};
ghost use Rattle.dm_types.specs.declared.item.Phase.TheVariants as phases;
ghost use Rattle.dm_past.specs.Saying.{archived_line, row_line_of};

use dm_hist::Row;
use dm_report::{add_field, add_last, add_number_field, number_or, number_text, state_text};
use dm_types::{NoMemory, Phase, Text};
use std::alloc::Global;

/// The state that is told of a row.
fn state_of(complete: bool) -> Phase
    ensures { result ≡ cond complete phases.Complete phases.Cancelled }
{
    if complete {
        Phase::Complete
    } else {
        Phase::Cancelled
    }
}

/// The line of a row, with its line feed: `<id> <complete or cancelled> <total or ?> <name or ->`.
pub fn row_line(alloc: Global, row: &Row) -> Result<Text, NoMemory>
    ensures { IfOk result (λ text. text ≡ row_line_of row.now) }
{
    let mut text = Text::new(alloc);
    add_number_field(alloc, &mut text, u128::from(row.id.0))?;
    add_field(
        &mut text,
        state_text(alloc, state_of(row.complete))?.bytes(),
    )?;
    add_field(&mut text, number_or(alloc, b"?", row.total)?.bytes())?;
    add_last(&mut text, row.name.bytes())?;
    Ok(text)
}

/// Adds the line of a row.
fn add_row_line(alloc: Global, text: &mut Text, row: &Row) -> Result<(), NoMemory>
    ensures { OnOk result (text.new ≡ text.old ++ row_line_of row.now) }
{
    let line = row_line(alloc, row)?;
    text.push_bytes(line.bytes())
}

/// The line of each row, in their order.
pub(crate) fn row_lines(alloc: Global, rows: &[Row]) -> Result<Text, NoMemory>
    ensures { IfOk result (λ text. text ≡ concat (map row_line_of rows.now)) }
{
    let mut text = Text::new(alloc);
    for row in rows {
        add_row_line(alloc, &mut text, row)?;
    }
    Ok(text)
}

/// `archived <count>`: so many items were moved.
pub(crate) fn archived_line(alloc: Global, count: u32) -> Result<Text, NoMemory>
    ensures { IfOk result (λ text. text ≡ archived_line count) }
{
    let mut text = Text::from_bytes(alloc, b"archived ")?;
    text.push_bytes(number_text(alloc, u128::from(count))?.bytes())?;
    text.push_bytes(b"\n")?;
    Ok(text)
}
