ghost use Rattle.std.specs.Prelude.{◌≡◌, ◌↔◌, IsTrue};
ghost use Rattle.dm_disk_model.specs.Disk.{folder_in};
ghost use Rattle.dm_disk_model.specs.Folder.{names_of};
ghost use Rattle.dm_disk.specs.Calls.{disk_after};
ghost use Rattle.dm_disk.specs.Look.{LooksBack, LooksPast};

use crate::call::{Act, Call};
use dm_disk_model::Area;

/// Where a name's file was before a call.
pub(crate) enum Back<'a> {
    /// Under this name.
    Under(&'a [u8]),
    /// The call made it.
    Made,
    /// There was none.
    Nowhere,
}

pub(crate) fn is_same_area(a: Area, b: Area) -> bool
    ensures { IsTrue result ↔ (a ≡ b) }
{
    match (a, b) {
        (Area::State, Area::State) => true,
        (Area::Files, Area::Files) => true,
        (Area::State, Area::Files) => false,
        (Area::Files, Area::State) => false,
    }
}

/// Where the name's file was before this call.
pub(crate) fn before_call<'a>(call: &'a Call, area: Area, name: &'a [u8]) -> Back<'a>
    ensures { LooksBack call.now area name.now result }
{
    if !is_same_area(area, call.area) {
        return Back::Under(name);
    }
    before_act(&call.act, name)
}

fn before_act<'a>(act: &'a Act, name: &'a [u8]) -> Back<'a>
    ensures { LooksPast act.now name.now result }
{
    match act {
        Act::Create { name: made } => {
            if made.is(name) {
                Back::Made
            } else {
                Back::Under(name)
            }
        }
        Act::Rename { from, to } => {
            if to.is(name) {
                Back::Under(from.bytes())
            } else if from.is(name) {
                Back::Nowhere
            } else {
                Back::Under(name)
            }
        }
        Act::Remove { name: gone } => {
            if gone.is(name) {
                Back::Nowhere
            } else {
                Back::Under(name)
            }
        }
        Act::Write { .. } => Back::Under(name),
        Act::Sync { .. } => Back::Under(name),
        Act::SyncNames => Back::Under(name),
    }
}

/// The number of the file that stands under a name.
pub(crate) fn file_under(calls: &[Call], area: Area, name: &[u8]) -> Option<u64>
    ensures { result ≡ names_of (folder_in area (disk_after calls.now)) name.now }
{
    let mut name = name;
    let mut left = calls.len();
    while left > 0 {
        left -= 1;
        match before_call(&calls[left], area, name) {
            Back::Under(other) => name = other,
            Back::Made => return Some(left as u64),
            Back::Nowhere => return None,
        }
    }
    None
}
