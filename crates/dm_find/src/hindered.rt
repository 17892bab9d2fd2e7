use dm_types::DiskKind;

/// Why a list could not be opened, or an item not be settled.
#[derive(Clone, Copy, Debug, PartialEq, Eq)]
pub enum Hindered {
    /// A call on the disk failed in this way.
    Disk(DiskKind),
    NoMemory,
}
