ghost use Rattle.std.specs.Prelude.{◌≡◌, OnOk};
ghost use Rattle.dm_store.specs.Store.{HasRoomOf, IsStore, view_of};

use crate::Store;
use dm_disk_model::Disk;
use dm_edge::Origin;
use dm_types::NoMemory;

/// Makes room for so many entries besides those that end the attempts that run.
pub fn make_room<D: Disk, O: Origin>(store: &mut Store<D, O>, count: usize) -> Result<(), NoMemory>
    requires { IsStore D.tells D.history store.old }
    ensures store { IsStore D.tells D.history store.new }
    ensures same { view_of store.new ≡ view_of store.old }
    ensures room { OnOk result (HasRoomOf count store.new) }
{
    let kept = 3 * store.lives.len();
    let Some(more) = kept.checked_add(count) else {
        return Err(NoMemory);
    };
    store.list.reserve(more)?;
    Ok(())
}
