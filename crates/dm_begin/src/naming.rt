ghost use Rattle.std.specs.Prelude.{◌≡◌, ◌++◌, IfOk, OnOk};
ghost use Rattle.dm_types.specs.Faults.{HasCause};
ghost use Rattle.dm_disk_model.specs.Faults.{names_kind};
ghost use Rattle.dm_item.specs.Row.{is_cancelled};
ghost use Rattle.dm_answers.specs.Describe.{used_names};
ghost use Rattle.dm_begin.specs.Naming.{AreTaken, name_used};

use dm_disk_model::{Area, Disk, NameList, NamesFault};
use dm_types::{Item, NoMemory, Phase};
use std::alloc::Global;

/// The names of the files, and those of the items but the cancelled ones. It changes nothing.
pub(crate) fn taken_names<D: Disk>(
    alloc: Global,
    disk: &mut D,
    items: &[Item],
) -> Result<NameList, NamesFault>
    ensures taken { IfOk result (AreTaken D.tells (D.history disk.old) items.now) }
    ensures still { D.history disk.new ≡ D.history disk.old }
    ensures cause { HasCause names_kind (D.faults disk.old) (D.faults disk.new) result }
    ensures far { D.far disk.new ≡ D.far disk.old }
{
    let mut taken = match disk.names(alloc, Area::Files) {
        Ok(taken) => taken,
        Err(fault) => return Err(fault),
    };
    match add_names(alloc, items, &mut taken) {
        Ok(()) => Ok(taken),
        Err(NoMemory) => Err(NamesFault::NoMemory),
    }
}

/// Adds the names of the items but the cancelled ones.
fn add_names(alloc: Global, items: &[Item], taken: &mut NameList) -> Result<(), NoMemory>
    ensures { OnOk result (taken.new ≡ taken.old ++ used_names items.now) }
{
    for item in items {
        match add_name(alloc, item, taken) {
            Ok(()) => {}
            Err(NoMemory) => return Err(NoMemory),
        }
    }
    Ok(())
}

/// Adds the name of an item that isn't cancelled, where it has one.
fn add_name(alloc: Global, item: &Item, taken: &mut NameList) -> Result<(), NoMemory>
    ensures { OnOk result (taken.new ≡ taken.old ++ name_used item.now) }
{
    if is_cancelled(item.phase) {
        return Ok(());
    }
    match &item.name {
        Some(name) => match name.copy(alloc) {
            Ok(name) => taken.push(name),
            Err(NoMemory) => Err(NoMemory),
        },
        None => Ok(()),
    }
}

fn is_cancelled(phase: Phase) -> bool
    ensures { result ≡ is_cancelled phase }
{
    matches!(phase, Phase::Cancelled)
}
