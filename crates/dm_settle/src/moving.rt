ghost use Rattle.std.specs.Prelude.{◌≡◌, [], IfOk, find};
ghost use Rattle.std.specs.Option.{option_copied};
ghost use Rattle.dm_item.specs.History.{get};
ghost use Rattle.dm_item.specs.Row.{is_finishing};
ghost use Rattle.dm_settle.specs.Moving.{IsMovingOf, NextMoving};

use dm_disk_model::{Area, Place};
use dm_item::Items;
use dm_part::place_of;
use dm_types::{Item, ItemId, NoMemory, Phase, Text};
use std::alloc::Global;

/// What is known of an item that is being finished.
#[derive(Drop)]
pub(crate) struct Moving {
    pub(crate) id: ItemId,
    /// Where its content came, and where it is to lie.
    pub(crate) part: Place,
    pub(crate) target: Place,
    pub(crate) total: u64,
    /// The digest that was stated.
    pub(crate) digest: Option<[u8; 32]>,
}

/// The text, or the empty one where there is none.
fn text_or_none(alloc: Global, text: &Option<Text>) -> Result<Text, NoMemory>
    ensures { IfOk result (λ copy. copy ≡ get text.now []) }
{
    match text {
        Some(text) => text.copy(alloc),
        None => Ok(Text::new(alloc)),
    }
}

fn moving_of(alloc: Global, item: &Item) -> Result<Moving, NoMemory>
    ensures { IfOk result (IsMovingOf item.now) }
{
    let part = place_of(alloc, item.id, item.epoch)?;
    let name = text_or_none(alloc, &item.name)?;
    Ok(Moving {
        id: item.id,
        part,
        target: Place {
            area: Area::Files,
            name,
        },
        total: item.total.unwrap_or(0),
        digest: item.digest,
    })
}

/// The first item that is being finished.
fn first_finishing(items: &[Item]) -> Option<&Item>
    ensures { option_copied result ≡ find (λ item. is_finishing item.phase) items.now }
{
    items
        .iter()
        .find(|item| matches!(item.phase, Phase::Finishing))
}

/// What is known of the first item that is being finished, where there is one.
pub(crate) fn next_moving(alloc: Global, items: &Items) -> Result<Option<Moving>, NoMemory>
    ensures { IfOk result (NextMoving items.now.items) }
{
    match first_finishing(items.items()) {
        Some(item) => match moving_of(alloc, item) {
            Ok(moving) => Ok(Some(moving)),
            Err(NoMemory) => Err(NoMemory),
        },
        None => Ok(None),
    }
}
