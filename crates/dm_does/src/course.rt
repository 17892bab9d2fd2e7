use dm_report::Verdict;
use dm_types::ItemId;

/// Which text of the list goes to standard output.
#[derive(Clone, Copy, Debug, PartialEq, Eq)]
pub enum Show {
    Nothing,
    /// The line of the item with this id.
    Line(ItemId),
    /// The line of each item.
    Lines,
    /// The item with this id, whole.
    Whole(ItemId),
    /// How many items are in each state.
    Counts,
    /// The list as CSV.
    Records,
}

/// How a command goes on behind its own entries.
#[derive(Clone, Copy, Debug, PartialEq, Eq)]
pub enum Course {
    /// It is over, and says this.
    Ends(Verdict, Show),
    /// Attempts on the item with this id follow, in so many slices.
    Brings(ItemId, u32),
}
