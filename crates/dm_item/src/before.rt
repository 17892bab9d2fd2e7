ghost use Rattle.std.specs.Prelude.{◌≡◌, ◌-◌, false, IfOk, option_map, vec_len, take};
ghost use Rattle.std.specs.Option.{option_copied};
ghost use Rattle.dm_item.specs.Before.{items_back};
ghost use Rattle.dm_item.specs.Row.{changed};
ghost use Rattle.dm_item.specs.Listing.{is_light, put_in};

use crate::change::change;
use crate::copies::copy_item;
use crate::take::find_place;
use dm_types::{Entry, Item, NoMemory, let_go};
use std::alloc::Global;
use std::marker::Model;
use std::mem::replace;

/// What a list was before it takes an entry, as far as that entry changes it.
#[derive(Drop)]
pub struct Before {
    pub(crate) next: u32,
    pub(crate) first: bool,
    pub(crate) early: bool,
    pub(crate) item: Option<Item>,
}

impl Model for Before {
    ghost use Rattle.dm_item.specs.Before.{Earlier};

    ghost Value = { Earlier };

    ghost view = { λ s. record {
      next = s.next;
      is_first = s.first;
      is_early = s.early;
      item = s.item;
    } };
}

/// The same item again, where there is one.
pub(crate) fn copy_found(alloc: Global, item: Option<&Item>) -> Result<Option<Item>, NoMemory>
    ensures { IfOk result (λ copy. copy ≡ option_copied item.entry) }
{
    match item {
        Some(item) => match copy_item(alloc, item) {
            Ok(copy) => Ok(Some(copy)),
            Err(NoMemory) => Err(NoMemory),
        },
        None => Ok(None),
    }
}

/// The item as an entry will leave it, where there is one.
pub(crate) fn changed_copy(
    alloc: Global,
    entry: &Entry,
    item: Option<&Item>,
) -> Result<Option<Item>, NoMemory>
    requires { is_light entry.now ≡ false }
    ensures { IfOk result (λ copy. copy ≡ option_map (changed entry.now) (option_copied item.entry)) }
{
    let mut copy = match copy_found(alloc, item) {
        Ok(Some(copy)) => copy,
        Ok(None) => return Ok(None),
        Err(NoMemory) => return Err(NoMemory),
    };
    match change(alloc, entry, &mut copy) {
        Ok(()) => Ok(Some(copy)),
        Err(NoMemory) => Err(NoMemory),
    }
}

/// Puts an item back in the place of the one with its id, or drops the last where there is none to
/// put back.
pub(crate) fn put_back(items: &mut Vec<Item>, item: Option<Item>)
    ensures { items.new.items ≡ items_back item items.old.items }
{
    match item {
        Some(item) => put_item(items, item),
        None => drop_last(items),
    }
}

/// Puts an item in the place of the first one with its id.
pub(crate) fn put_item(items: &mut Vec<Item>, item: Item)
    ensures { items.new.items ≡ put_in item.id.0 item items.old.items }
{
    match find_place(items, item.id) {
        Some(place) => let_go(replace(&mut items[place], item)),
        None => let_go(item),
    }
}

/// Drops the last item, where there is one.
fn drop_last(items: &mut Vec<Item>)
    ensures { items.new.items ≡ take (vec_len items.old - 1) items.old.items }
{
    let _ = items.pop();
}
