ghost use Rattle.std.specs.Prelude.{◌≡◌, IfOk, IsTrue, ◌↔◌};
ghost use Rattle.dm_types.specs.Name as names;

use crate::{Epoch, ItemId, NoMemory, Text};
use std::alloc::Global;

/// The name of the part of an item in one of its epochs: `Unconfirmed <id>-<epoch>.crdownload`.
pub fn part_name(alloc: Global, id: ItemId, epoch: Epoch) -> Result<Text, NoMemory>
    ensures { IfOk result (λ text. text ≡ names.part_name id.0 epoch.0) }
{
    let ItemId(id) = id;
    let Epoch(epoch) = epoch;
    let name = format!(in alloc; "Unconfirmed {id}-{epoch}.crdownload")?;
    Ok(Text::from_vec(name.into_bytes()))
}

/// Whether two names are taken for one: they differ at most in the case of ASCII letters.
pub fn same_folded(a: &[u8], b: &[u8]) -> bool
    ensures { IsTrue result ↔ (names.fold_case a.now ≡ names.fold_case b.now) }
{
    a.eq_ignore_ascii_case(b)
}
