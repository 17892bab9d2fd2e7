/// What is asked of the list and of the history together.
#[derive(Clone, Copy, Debug, PartialEq, Eq)]
pub enum Task {
    /// Each complete or cancelled item moves to the history.
    Archive,
    /// The first `limit` rows above an id are printed, of those that are shown.
    Page { after: u32, limit: u32 },
}
