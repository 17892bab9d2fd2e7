use dm_types::{DiskKind, Listed, Text};

/// The two folders of a disk.
#[derive(Clone, Copy, Debug, PartialEq, Eq)]
pub enum Area {
    /// The journal's.
    State,
    /// The user's files and the parts.
    Files,
}

/// A file's name in one of the folders.
#[derive(Debug, Drop)]
pub struct Place {
    pub area: Area,
    pub name: Text,
}

/// The names of a folder.
pub type NameList = Listed<Text>;

/// A call on the disk failed in this way.
#[derive(Clone, Copy, Debug, PartialEq, Eq)]
pub struct DiskFault(pub DiskKind);

/// How a folder could not be listed.
#[derive(Clone, Copy, Debug, PartialEq, Eq)]
pub enum NamesFault {
    Disk(DiskKind),
    NoMemory,
}
