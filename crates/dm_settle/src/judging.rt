ghost use Rattle.std.specs.Prelude.{◌≡◌, ◌↔◌, Contains, IfOk, IsTrue};
ghost use Rattle.dm_types.specs.Faults.{HasCause};
ghost use Rattle.dm_disk_model.specs.Disk.{bytes_at, now};
ghost use Rattle.dm_store.specs.Becomes.{kind_is};
ghost use Rattle.dm_answers.specs.Settling.{is_stated_other};
ghost use Rattle.dm_settle.specs.Judging.{Judges, Weighs, judged_by};

use crate::moving::Moving;
use dm_disk_model::{Disk, NameList, Place};
use dm_part::{PartFault, digest};
use dm_types::{DiskKind, Reason};

/// What a file holds of the content.
pub(crate) enum Weighed {
    /// Fewer bytes than it has, or nothing stands there.
    Short,
    /// All of it, with this SHA-256.
    Whole([u8; 32]),
}

/// How an item that was being finished is settled.
pub(crate) enum Judged {
    /// It is interrupted.
    Broken(Reason),
    /// Its content lies in its part, whole, with this SHA-256.
    InPart([u8; 32]),
    /// Its content lies under its name already.
    Named([u8; 32]),
}

/// Whether the name is listed.
fn is_listed(names: &NameList, place: &Place) -> bool
    ensures { IsTrue result ↔ Contains names.now place.now.name }
{
    names.items().iter().any(|name| name.same(&place.name))
}

/// Weighs what stands at a place. It only reads, in pieces of 65,536 bytes.
fn weigh<D: Disk>(disk: &mut D, place: &Place, total: u64) -> Result<Weighed, DiskKind>
    ensures weighs { D.tells → IfOk result (Weighs (bytes_at (now (D.history disk.old)) place.now) total) }
    ensures still { D.history disk.new ≡ D.history disk.old }
    ensures cause { HasCause kind_is (D.faults disk.old) (D.faults disk.new) result }
    ensures far { D.far disk.new ≡ D.far disk.old }
{
    match disk.length(place) {
        Ok(Some(_)) => {}
        Ok(None) => return Ok(Weighed::Short),
        Err(fault) => return Err(fault.0),
    }
    let mut buffer = [0u8; 65_536];
    match digest(disk, place, total, &mut buffer) {
        Ok(sum) => Ok(Weighed::Whole(sum)),
        Err(PartFault::Short(_)) => Ok(Weighed::Short),
        Err(PartFault::Disk(kind)) => Err(kind),
    }
}

/// Whether another sum is stated.
fn is_other(stated: &Option<[u8; 32]>, sum: &[u8; 32]) -> bool
    ensures { result ≡ is_stated_other stated.now sum.now }
{
    match stated {
        Some(stated) => stated != sum,
        None => false,
    }
}

/// Judges by what the one file that stands holds.
fn verdict(weighed: Weighed, stated: &Option<[u8; 32]>, in_part: bool) -> Judged
    ensures { result ≡ judged_by in_part stated.now weighed }
{
    match weighed {
        Weighed::Short => Judged::Broken(Reason::FileTooShort),
        Weighed::Whole(sum) => {
            if is_other(stated, &sum) {
                Judged::Broken(Reason::FileHashMismatch)
            } else if in_part {
                Judged::InPart(sum)
            } else {
                Judged::Named(sum)
            }
        }
    }
}

/// Judges an item by the names that were listed, and by the bytes where one of its two files stands.
pub(crate) fn judge<D: Disk>(
    disk: &mut D,
    moving: &Moving,
    names: &NameList,
) -> Result<Judged, DiskKind>
    ensures judges { IfOk result (Judges D.tells (now (D.history disk.old)) names.now moving.now) }
    ensures still { D.history disk.new ≡ D.history disk.old }
    ensures cause { HasCause kind_is (D.faults disk.old) (D.faults disk.new) result }
    ensures far { D.far disk.new ≡ D.far disk.old }
{
    let in_part = is_listed(names, &moving.part);
    let named = is_listed(names, &moving.target);
    match (in_part, named) {
        (true, true) => Ok(Judged::Broken(Reason::FileFailed)),
        (false, false) => Ok(Judged::Broken(Reason::FileTooShort)),
        (true, false) => match weigh(disk, &moving.part, moving.total) {
            Ok(weighed) => Ok(verdict(weighed, &moving.digest, true)),
            Err(kind) => Err(kind),
        },
        (false, true) => match weigh(disk, &moving.target, moving.total) {
            Ok(weighed) => Ok(verdict(weighed, &moving.digest, false)),
            Err(kind) => Err(kind),
        },
    }
}
