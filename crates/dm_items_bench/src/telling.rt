ghost use Rattle.std.specs.Prelude.{◌≤◌, ◌^◌, IfOk, IfSome, IsTrue};
ghost use Rattle.dm_answers.specs.Describe.{IsTelling};

use crate::adding::ADDRESS;
use crate::disks::MemoryDesk;
use crate::said::Said;
use dm_items::{DeskFault, Pass, Told};
use dm_name::wish_name;
use dm_types::{Address, Key, NoMemory, Text};
use std::alloc::Global;

/// Whether a total is at most 2^40.
fn is_small(total: Option<u64>) -> bool
    ensures { IsTrue result → IfSome total (λ bytes. bytes ≤ 2 ^ 40) }
{
    match total {
        Some(bytes) => bytes <= 1_099_511_627_776,
        None => true,
    }
}

/// What a reply told: of a tagged one the key is `"a"`, else it is the attempt's own.
fn told(
    alloc: Global,
    pass: &Pass,
    is_tagged: bool,
    total: Option<u64>,
    wish: &[u8],
) -> Result<Told, NoMemory>
    requires { IfSome total (λ bytes. bytes ≤ 2 ^ 40) }
    ensures { IfOk result (IsTelling pass.now) }
{
    let address = Address {
        text: Text::new(alloc),
        host: Text::new(alloc),
        port: 80,
        target: Text::new(alloc),
    };
    let wish = wish_name(alloc, wish, None, &address)?;
    let last_address = Text::from_bytes(alloc, ADDRESS)?;
    let tag = Text::from_bytes(alloc, b"\"a\"")?;
    let key = if is_tagged {
        Key::Strong(tag)
    } else {
        Key::Once(pass.id, pass.attempt)
    };
    Ok(Told {
        key,
        last_address,
        total,
        wish,
        modified: Text::new(alloc),
    })
}

pub(crate) fn describe(
    alloc: Global,
    desk: &mut MemoryDesk,
    pass: &Pass,
    is_tagged: bool,
    total: Option<u64>,
    wish: &[u8],
) -> Said {
    if !is_small(total) {
        return Said::Gone;
    }
    match told(alloc, pass, is_tagged, total, wish) {
        Ok(told) => match desk.describe(pass, told) {
            Ok(named) => Said::Named(named),
            Err(fault) => Said::No(fault),
        },
        Err(NoMemory) => Said::No(DeskFault::NoMemory),
    }
}
