ghost use Rattle.std.specs.Prelude.{◌≡◌, ◌↔◌, IsTrue, IsOk, IfOk, OnOk, ℕ, Contains, List, IsSome, IsSomeAnd};
ghost use Rattle.dm_disk_model.specs.Disk.{folder_in};
ghost use Rattle.dm_disk_model.specs.Folder.{names_of, Lists};
ghost use Rattle.dm_disk.specs.Calls.{disk_after};
ghost use Rattle.dm_disk.specs.Given.{given_by, HasListed};
ghost use Rattle.std.specs.Option.{option_copied, option_map};

use crate::call::{Act, Call};
use crate::find::{file_under, is_same_area};
use dm_disk_model::Area;
use dm_types::{NoMemory, Text};
use std::alloc::Global;

/// The names that stand in a folder.
pub(crate) fn list_names(alloc: Global, calls: &[Call], area: Area) -> Result<Vec<Text>, NoMemory>
    ensures { IfOk result (λ names. Lists (folder_in area (disk_after calls.now)) names.items) }
{
    let mut names = Vec::new(alloc);
    for call in calls {
        if let Some(name) = name_given(call, area) {
            list_name(alloc, calls, area, name, &mut names)?;
        }
    }
    Ok(names)
}

/// The name that a call gave to a file of the folder.
fn name_given(call: &Call, area: Area) -> Option<&[u8]>
    ensures { option_map (λ name. name.now) result ≡ given_by area call.now }
{
    if !is_same_area(area, call.area) {
        return None;
    }
    match &call.act {
        Act::Create { name } => Some(name.bytes()),
        Act::Rename { to, .. } => Some(to.bytes()),
        Act::Write { .. } => None,
        Act::Sync { .. } => None,
        Act::Remove { .. } => None,
        Act::SyncNames => None,
    }
}

/// Lists a name if it stands and isn't listed yet.
fn list_name(
    alloc: Global,
    calls: &[Call],
    area: Area,
    name: &[u8],
    names: &mut Vec<Text>,
) -> Result<(), NoMemory>
    ensures { OnOk result (HasListed (names_of (folder_in area (disk_after calls.now))) name.now names.old.items names.new.items) }
{
    if file_under(calls, area, name).is_none() || is_listed(names, name) {
        return Ok(());
    }
    let copy = Text::from_bytes(alloc, name)?;
    names.push(copy)?;
    Ok(())
}

fn is_listed(names: &[Text], name: &[u8]) -> bool
    ensures { IsTrue result ↔ Contains names.now name.now }
{
    for listed in names {
        if listed.is(name) {
            return true;
        }
    }
    false
}
