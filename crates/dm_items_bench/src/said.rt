use dm_items::{Begun, DeskFault, Finished, Named, SlicePass, Taken};
use dm_types::{By, ItemId, Mode, Phase};

/// What a call says.
#[derive(Clone, Copy, PartialEq, Eq)]
pub enum Said {
    Done,
    Taken(Taken),
    Begun(Begun),
    Named(Named),
    /// So many parts, and the last of them.
    Parts(u64, Option<SlicePass>),
    Next(u64),
    Finished(Finished),
    /// An item's phase, and how many bytes of it are saved.
    Is(Phase, u64),
    Gone,
    Mode(Option<Mode>),
    Due(Option<(ItemId, By)>),
    Holds(bool),
    No(DeskFault),
}

/// What a call says that answers nothing but a fault.
pub(crate) fn done(answer: Result<(), DeskFault>) -> Said {
    match answer {
        Ok(()) => Said::Done,
        Err(fault) => Said::No(fault),
    }
}
