ghost use Rattle.std.specs.Prelude.{◌≡◌, [], IfOk};
ghost use Rattle.std.specs.Option.{unwrap_or};
ghost use Rattle.dm_hist.specs.Shown as shown;

use crate::Row;
use dm_types::{Item, ItemId, NoMemory, Phase, Text};
use std::alloc::Global;

/// The row of an item, as the history keeps it.
pub fn row_of_item(alloc: Global, item: &Item) -> Result<Row, NoMemory>
    ensures { IfOk result (λ row. row ≡ shown.row_of_item item.now) }
{
    let word = item.word.copy(alloc)?;
    let address = item.first_address.copy(alloc)?;
    let name = copy_name(alloc, &item.name)?;
    Ok(Row {
        id: item.id,
        word,
        address,
        name,
        complete: is_complete(item.phase),
        total: item.total,
        digest: item.have,
        at_ms: item.at_ms,
    })
}

/// The name, or an empty one.
fn copy_name(alloc: Global, name: &Option<Text>) -> Result<Text, NoMemory>
    ensures { IfOk result (λ copy. copy ≡ unwrap_or name.now []) }
{
    match name {
        Some(name) => name.copy(alloc),
        None => Ok(Text::new(alloc)),
    }
}

fn is_complete(phase: Phase) -> bool
    ensures { result ≡ shown.is_complete phase }
{
    match phase {
        Phase::Complete => true,
        Phase::Waiting
        | Phase::Running
        | Phase::Paused
        | Phase::Finishing
        | Phase::Cancelled
        | Phase::Interrupted(_) => false,
    }
}

/// Whether an item has the id. The row of such an id isn't shown.
pub fn is_listed(id: ItemId, items: &[Item]) -> bool
    ensures { result ≡ shown.is_listed id.0 items.now }
{
    items.iter().any(|item| item.id.0 == id.0)
}
