use dm_types::DiskKind;

/// Why an entry isn't recorded, where its memory is taken with it.
#[derive(Clone, Copy, Debug, PartialEq, Eq)]
pub enum Unrecorded {
    NoMemory,
    /// A call on the journal failed in this way, and the desk is broken.
    Journal(DiskKind),
}
