use dm_disk_model::Area;
use dm_types::Text;

/// One call that changed a folder.
#[derive(Debug, Drop)]
pub(crate) struct Call {
    pub area: Area,
    pub act: Act,
}

/// What a call did in its folder. A file goes by its number, which is that of the call that made it.
#[derive(Debug, Drop)]
pub(crate) enum Act {
    Create { name: Text },
    Write { file: u64, at: u64, bytes: Text },
    Sync { file: u64 },
    Rename { from: Text, to: Text },
    Remove { name: Text },
    SyncNames,
}
