use dm_types::{Attempt, DiskKind, ItemId, Phase};
use std::error::Error;
use std::fmt;

/// Why a desk could not be opened. The disk is handed back.
#[derive(Debug, Drop)]
pub enum OpenFault<D> {
    /// A call on the disk failed in this way.
    Disk(DiskKind, D),
    /// The journal is damaged: it is no journal, or a body of it isn't an entry that may come there.
    /// The place, in bytes, is that of the first gate that shows it, or 0 for the header.
    Damaged(u64, D),
    NoMemory(D),
}

/// Why a call on a desk was refused. Where several causes stand together the earliest is answered, in
/// this order: `Broken`, `NoItem`, `Stale` or `WrongState`, `NotNext`, `PastEnd`, `CheckpointDue`,
/// `WordTaken`, `ItemsFull`, `NoMemory`, and then what the disk answers.
#[derive(Clone, Copy, Debug, PartialEq, Eq)]
pub enum DeskFault {
    /// No item has the id.
    NoItem(ItemId),
    /// The item's phase, or its mode, allows no such call.
    WrongState(Phase),
    /// The attempt is over. It holds the item's attempt, and its round or 0.
    Stale { attempt: Attempt, round: u32 },
    /// Another place comes next.
    NotNext(u64),
    /// The piece passes this end.
    PastEnd(u64),
    /// So many bytes were landed since the last checkpoint.
    CheckpointDue(u64),
    /// The list is full, or the ids are used up. It holds how many items there are.
    ItemsFull(u32),
    /// The item with the word has another address.
    WordTaken(ItemId),
    /// A call on a part, or on the names of the files, failed in this way.
    File(DiskKind),
    /// A call on the journal failed in this way. The desk is broken until it is reopened.
    Journal(DiskKind),
    /// The journal failed, or a reopening was refused, and the desk wasn't reopened since.
    Broken,
    NoMemory,
    /// The journal is damaged, at this place in bytes. It comes from a reopening alone.
    Damaged(u64),
}

impl fmt::Display for DeskFault {
    fn fmt<W: fmt::Write>(&self, f: &mut fmt::Formatter<W>) -> fmt::Result {
        f.write_str(match self {
            DeskFault::NoItem(_) => "no item has the id",
            DeskFault::WrongState(_) => "the item's state allows no such call",
            DeskFault::Stale { .. } => "the attempt is over",
            DeskFault::NotNext(_) => "another place comes next",
            DeskFault::PastEnd(_) => "the piece passes its part's end",
            DeskFault::CheckpointDue(_) => "a checkpoint is due",
            DeskFault::ItemsFull(_) => "the list is full",
            DeskFault::WordTaken(_) => "the word is taken",
            DeskFault::File(_) => "a call on the files failed",
            DeskFault::Journal(_) => "a call on the journal failed",
            DeskFault::Broken => "the desk is broken",
            DeskFault::NoMemory => "no memory",
            DeskFault::Damaged(_) => "the journal is damaged",
        })
    }
}

impl Error for DeskFault {}
