// How one item is brought, whatever has become of it.
use crate::calls::{Call, make};
use crate::disks::{MemoryDesk, open};
use crate::said::Said;
use dm_disk::MemoryDisk;
use dm_items::{Begun, Pass};
use dm_types::By;
use std::alloc::Global;

/// Brings `hello world` into item 1 as `hello.txt`, as far as the disk goes, and tells how the last call
/// ended. What a call on the way answers shows in the end.
pub(crate) fn bring(alloc: Global, desk: &mut MemoryDesk) -> Said {
    let _ = make(alloc, desk, Call::Add(b"w1"));
    let _ = make(alloc, desk, Call::Resume(1));
    match make(alloc, desk, Call::Begin(1, By::User)) {
        Said::Begun(Begun::Fresh(pass)) => {
            let _ = make(alloc, desk, Call::Tagged(pass, Some(11), b"hello.txt"));
            bring_rest(alloc, desk, pass)
        }
        Said::Begun(Begun::Continue(pass)) => bring_rest(alloc, desk, pass),
        said => said,
    }
}

/// Lands what is missing behind the first place or the first 5 bytes, which are saved apart.
fn bring_rest(alloc: Global, desk: &mut MemoryDesk, pass: Pass) -> Said {
    if let Said::Parts(_, Some(part)) = make(alloc, desk, Call::Plan(pass, 1)) {
        if part.first == 0 {
            let _ = make(alloc, desk, Call::Land(part, 0, b"hello"));
            let _ = make(alloc, desk, Call::Checkpoint(pass));
        }
        let _ = make(alloc, desk, Call::Land(part, 5, b" world"));
    }
    make(alloc, desk, Call::Finish(pass))
}

/// Opens a desk and brings item 1, as far as the disk goes: how the last call ended, and the disk.
pub(crate) fn session(alloc: Global, disk: MemoryDisk) -> (Said, MemoryDisk) {
    match open(alloc, disk) {
        Ok(mut desk) => {
            let said = bring(alloc, &mut desk);
            (said, desk.into_disk())
        }
        Err(disk) => (Said::Gone, disk),
    }
}
