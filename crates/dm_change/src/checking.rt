ghost use Rattle.std.specs.Prelude.{◌≡◌, ◌⊎◌, ◌≤◌, ◌↔◌, IsTrue, length};
ghost use Rattle.dm_change.specs.Checking.{CheckedBy, RoomBy};

use dm_answers::Order;
use dm_item::Items;
use dm_types::ItemId;

/// What the list says of an order.
pub(crate) enum Checked {
    /// It fits, and this id comes next.
    Fits(ItemId),
    /// This item has its word and its address.
    Known(ItemId),
    /// This item has its word, and another address.
    Other(ItemId),
    /// The list is full, or the ids are used up. It holds how many items there are.
    Full(u32),
}

fn is_full(items: &Items, limit: u32) -> bool
    requires { items.now.limit ≡ limit }
    ensures { IsTrue result ↔ ((items.now.limit ≤ length items.now.items) ⊎ (items.now.next ≡ 4294967295)) }
{
    items.count() >= limit || items.next() == u32::MAX
}

fn check_room(items: &Items, limit: u32) -> Checked
    requires { items.now.limit ≡ limit }
    ensures { RoomBy items.now result }
{
    if is_full(items, limit) {
        Checked::Full(items.count())
    } else {
        Checked::Fits(ItemId(items.next()))
    }
}

/// Looks an order up in a list.
pub(crate) fn check_order(items: &Items, limit: u32, order: &Order) -> Checked
    requires { items.now.limit ≡ limit }
    ensures { CheckedBy items.now order.now result }
{
    let Some(id) = items.by_word(order.word.bytes()) else {
        return check_room(items, limit);
    };
    let Some(item) = items.get(id) else {
        unreachable!()
    };
    if item.first_address.same(&order.address.text) {
        Checked::Known(id)
    } else {
        Checked::Other(id)
    }
}
