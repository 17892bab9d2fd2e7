ghost use Rattle.std.specs.Prelude.{ℕ, List, IsTrue};
ghost use Rattle.dm_answers.specs.Land.{SaysPiece};
ghost use Rattle.dm_store.specs.Origin.{said_of};

use crate::disks::MemoryDesk;
use crate::said::{Said, done};
use dm_items::SlicePass;
use dm_request::read_address;
use dm_types::ItemId;
use std::alloc::Global;

/// Whether an address is read of the text that an item keeps of its content.
fn is_brought(alloc: Global, desk: &MemoryDesk, id: ItemId) -> bool
    ensures { IsTrue result → (at : ℕ) (piece : List ℕ) → SaysPiece (said_of (λ _ _ _ _. Unit {0})) desk.now.items.items id at piece }
{
    let Some(item) = desk.view(id) else {
        return true;
    };
    match &item.last_address {
        Some(text) => read_address(alloc, text.bytes()).is_ok(),
        None => true,
    }
}

/// Lands a piece of at most 64 bytes.
pub(crate) fn land(
    alloc: Global,
    desk: &mut MemoryDesk,
    pass: &SlicePass,
    at: u64,
    piece: &[u8],
) -> Said {
    let fits = !piece.is_empty() && piece.len() as u64 <= desk.limits().piece;
    if fits && is_brought(alloc, desk, pass.id) {
        done(desk.land(pass, at, piece))
    } else {
        Said::Gone
    }
}
