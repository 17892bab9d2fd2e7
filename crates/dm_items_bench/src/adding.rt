ghost use Rattle.std.specs.Prelude.{◌≤◌, length, IfOk};
ghost use Rattle.dm_answers.specs.Add.{IsOrder};

use crate::disks::MemoryDesk;
use crate::said::Said;
use dm_items::{DeskFault, Order, Taken};
use dm_types::{Address, ItemId, NoMemory, Text};
use std::alloc::Global;

/// The address of all items.
pub(crate) const ADDRESS: &[u8] = b"http://h/a";

/// An order for the address under a word.
fn order(alloc: Global, word: &[u8], digest: Option<[u8; 32]>) -> Result<Order, NoMemory>
    requires { length word.now ≤ 64 }
    ensures { IfOk result IsOrder }
{
    let word = Text::from_bytes(alloc, word)?;
    let text = Text::from_bytes(alloc, ADDRESS)?;
    Ok(Order {
        word,
        address: Address {
            text,
            host: Text::new(alloc),
            port: 80,
            target: Text::new(alloc),
        },
        wish: Text::new(alloc),
        digest,
    })
}

pub(crate) fn add(
    alloc: Global,
    desk: &mut MemoryDesk,
    word: &[u8],
    digest: Option<[u8; 32]>,
) -> Said {
    if word.len() > 64 {
        return Said::Gone;
    }
    match order(alloc, word, digest) {
        Ok(order) => match desk.add(order, 0) {
            Ok(taken) => Said::Taken(taken),
            Err(fault) => Said::No(fault),
        },
        Err(NoMemory) => Said::No(DeskFault::NoMemory),
    }
}

/// Adds so many items with no word, up to the first that gets another number than the next from 1 on.
pub(crate) fn add_many(alloc: Global, desk: &mut MemoryDesk, count: u32) -> Said {
    for place in 0..count {
        let said = add(alloc, desk, b"", None);
        if said != Said::Taken(Taken::New(ItemId(place + 1))) {
            return said;
        }
    }
    Said::Done
}
