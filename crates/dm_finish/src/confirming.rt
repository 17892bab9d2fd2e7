ghost use Rattle.std.specs.Prelude.{◌≡◌, IfOk};
ghost use Rattle.dm_types.specs.Faults.{HasCause};
ghost use Rattle.dm_disk_model.specs.Disk.{Stands, now};
ghost use Rattle.dm_store.specs.Becomes.{kind_is};
ghost use Rattle.dm_finish.specs.Ending.{Compares, ConfirmedAs, unconfirmed};

use dm_disk_model::{Disk, Place};
use dm_part::{PartFault, digest};
use dm_types::DiskKind;

/// What is found of a part whose content has all come.
#[derive(Clone, Copy)]
pub enum Confirmed {
    /// It has this SHA-256, and no other was stated.
    Sum([u8; 32]),
    /// It has another SHA-256 than the stated one.
    Other { have: [u8; 32], wanted: [u8; 32] },
    /// It ends here, below the total.
    Short(u64),
}

/// Takes the sum of a part up to the total, and compares it with the stated one. It takes no memory.
pub fn confirm<D: Disk>(
    disk: &mut D,
    part: &Place,
    total: u64,
    stated: Option<[u8; 32]>,
) -> Result<Confirmed, DiskKind>
    requires { D.tells → Stands (now (D.history disk.old)) part.now }
    ensures is { IfOk result (ConfirmedAs D.tells (now (D.history disk.old)) part.now total stated) }
    ensures stays { D.history disk.new ≡ D.history disk.old }
    ensures cause { HasCause kind_is (D.faults disk.old) (D.faults disk.new) result }
    ensures far { D.far disk.new ≡ D.far disk.old }
{
    let mut buffer = [0; 65_536];
    match digest(disk, part, total, &mut buffer) {
        Ok(have) => Ok(compare(have, stated)),
        Err(fault) => ended(fault),
    }
}

/// Compares a sum with the stated one.
fn compare(have: [u8; 32], stated: Option<[u8; 32]>) -> Confirmed
    ensures { Compares have stated result }
{
    match stated {
        Some(wanted) => {
            if have == wanted {
                Confirmed::Sum(have)
            } else {
                Confirmed::Other { have, wanted }
            }
        }
        None => Confirmed::Sum(have),
    }
}

/// What is found of a part that has no sum.
fn ended(fault: PartFault) -> Result<Confirmed, DiskKind>
    ensures { result ≡ unconfirmed fault }
{
    match fault {
        PartFault::Short(have) => Ok(Confirmed::Short(have)),
        PartFault::Disk(kind) => Err(kind),
    }
}
