/// How a call on the disk failed.
#[derive(Clone, Copy, Debug, PartialEq, Eq)]
pub enum DiskKind {
    /// Any failure without a kind of its own.
    Failed,
    /// Access was denied.
    Denied,
    /// There was no room.
    NoSpace,
    /// The name was too long for the file system.
    NameTooLong,
}

/// How an interrupted item may go on.
#[derive(Clone, Copy, Debug, PartialEq, Eq)]
pub enum Mode {
    /// It may not.
    Invalid,
    /// By itself, from where it stopped.
    ImmediateContinue,
    /// By itself, from the start.
    ImmediateRestart,
    /// Where the user asks, from where it stopped.
    UserContinue,
    /// Where the user asks, from the start.
    UserRestart,
}

/// Who began an attempt.
#[derive(Clone, Copy, Debug, PartialEq, Eq)]
pub enum By {
    User,
    Itself,
}
