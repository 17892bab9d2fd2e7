//! The lines that an import prints.
ghost use Rattle.std.specs.Prelude.{◌≡◌, ◌++◌, IfOk, OnOk};
ghost use Rattle.std.specs.Option.{option_copied};
ghost use Rattle.dm_report.specs.Texts.{item_line_of};
ghost use Rattle.dm_does.specs.Saying.{text_in};
ghost use Rattle.dm_import.specs.Saying.{line_in, lines_in};

use dm_item::Items;
use dm_past::row_line;
use dm_report::item_line;
use dm_shown::Named;
use dm_types::{Item, NoMemory, Text};
use std::alloc::Global;

/// The line of an item that is there.
fn item_line_or_none(alloc: Global, item: Option<&Item>) -> Result<Text, NoMemory>
    ensures { IfOk result (λ text. text ≡ text_in item_line_of (option_copied item.entry)) }
{
    match item {
        Some(item) => item_line(alloc, item),
        None => Ok(Text::new(alloc)),
    }
}

/// The line of an item or of a row.
fn named_line(alloc: Global, items: &Items, named: &Named) -> Result<Text, NoMemory>
    ensures { IfOk result (λ text. text ≡ line_in items.now.items named.now) }
{
    match named {
        Named::Item(id) => item_line_or_none(alloc, items.get(*id)),
        Named::Row(row) => row_line(alloc, row),
    }
}

/// Adds such a line.
fn add_named_line(
    alloc: Global,
    text: &mut Text,
    items: &Items,
    named: &Named,
) -> Result<(), NoMemory>
    ensures { OnOk result (text.new ≡ text.old ++ line_in items.now.items named.now) }
{
    let line = named_line(alloc, items, named)?;
    text.push_bytes(line.bytes())
}

/// The line of each, in their order.
pub(crate) fn named_lines(alloc: Global, items: &Items, all: &[Named]) -> Result<Text, NoMemory>
    ensures { IfOk result (λ text. text ≡ lines_in items.now.items all.now) }
{
    let mut text = Text::new(alloc);
    for named in all {
        add_named_line(alloc, &mut text, items, named)?;
    }
    Ok(text)
}
