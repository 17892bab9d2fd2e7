ghost use Rattle.std.specs.Prelude.{◌≡◌, IsTrue, IsSome};
ghost use Rattle.dm_policy.specs.Mode.{asked_mode, because_by, by_user, from_start, is_continue, is_immediate, is_invalid, is_restart, mode_by, row_mode};

use dm_types::{Attempt, Mode, Reason};

/// How many attempts an item makes by itself after one by the user.
pub const MOST_AUTOS: u32 = 5;

/// What the mode of an item depends on beside its reason.
#[derive(Clone, Copy, Debug, PartialEq, Eq)]
pub struct ModeFacts {
    /// Its key is there and is a strong tag.
    pub strong: bool,
    /// Its total is known.
    pub total: bool,
    /// Its saved cover has a byte.
    pub covered: bool,
    /// Attempts by itself since the last one by the user.
    pub autos: u32,
    pub attempt: Attempt,
    /// The user paused it.
    pub paused: bool,
}

/// How an item with this reason may go on.
pub fn mode_of(reason: Option<Reason>, facts: ModeFacts) -> Mode
    ensures { result ≡ mode_by reason facts }
{
    if facts.attempt.0 == u32::MAX {
        return Mode::Invalid;
    }
    let asked = mode_asked(reason);
    let placed = if facts.strong && facts.total && facts.covered {
        asked
    } else {
        started(asked)
    };
    if facts.paused || facts.autos >= MOST_AUTOS {
        by_hand(placed)
    } else {
        placed
    }
}

/// The number that a restart records: 1 the reason asks for it, 2 the key is missing or stands for
/// one attempt, 3 the total isn't known, 4 no byte is covered. The first that holds is told.
pub fn because_of(reason: Option<Reason>, facts: ModeFacts) -> Option<u8>
    ensures because { result ≡ because_by reason facts }
    ensures told { IsTrue (is_restart (mode_by reason facts)) → IsSome result }
{
    if is_restart(mode_asked(reason)) {
        Some(1)
    } else if !facts.strong {
        Some(2)
    } else if !facts.total {
        Some(3)
    } else if !facts.covered {
        Some(4)
    } else {
        None
    }
}

/// Whether the item goes on without being asked to.
pub fn is_immediate(mode: Mode) -> bool
    ensures { result ≡ is_immediate mode }
{
    matches!(mode, Mode::ImmediateContinue | Mode::ImmediateRestart)
}

/// Whether the item goes on from where it stopped.
pub fn is_continue(mode: Mode) -> bool
    ensures { result ≡ is_continue mode }
{
    matches!(mode, Mode::ImmediateContinue | Mode::UserContinue)
}

/// Whether the item's content is brought anew.
pub fn is_restart(mode: Mode) -> bool
    ensures { result ≡ is_restart mode }
{
    matches!(mode, Mode::ImmediateRestart | Mode::UserRestart)
}

/// Whether the item may not go on.
pub fn is_invalid(mode: Mode) -> bool
    ensures { result ≡ is_invalid mode }
{
    matches!(mode, Mode::Invalid)
}

/// The table's row of a reason, or of none.
fn mode_asked(reason: Option<Reason>) -> Mode
    ensures { result ≡ asked_mode reason }
{
    match reason {
        None => Mode::UserContinue,
        Some(reason) => mode_row(reason),
    }
}

/// The table's row of a reason.
fn mode_row(reason: Reason) -> Mode
    ensures { result ≡ row_mode reason }
{
    match reason {
        Reason::NetworkTimeout | Reason::ServerContentLengthMismatch => Mode::ImmediateContinue,
        Reason::ServerNoRange | Reason::FileTooShort | Reason::FileHashMismatch => {
            Mode::ImmediateRestart
        }
        Reason::NetworkFailed
        | Reason::NetworkDisconnected
        | Reason::NetworkServerDown
        | Reason::ServerFailed
        | Reason::UserShutdown
        | Reason::Crash
        | Reason::NoMemory => Mode::UserContinue,
        Reason::FileFailed
        | Reason::FileAccessDenied
        | Reason::FileNoSpace
        | Reason::FileNameTooLong
        | Reason::FileTooLarge => Mode::UserRestart,
        Reason::NetworkInvalidRequest
        | Reason::ServerBadContent
        | Reason::ServerUnauthorized
        | Reason::ServerForbidden
        | Reason::UserCanceled => Mode::Invalid,
    }
}

/// The same mode, from the start.
fn started(mode: Mode) -> Mode
    ensures { result ≡ from_start mode }
{
    match mode {
        Mode::ImmediateContinue => Mode::ImmediateRestart,
        Mode::UserContinue => Mode::UserRestart,
        other => other,
    }
}

/// The same mode, where the user asks.
fn by_hand(mode: Mode) -> Mode
    ensures { result ≡ by_user mode }
{
    match mode {
        Mode::ImmediateContinue => Mode::UserContinue,
        Mode::ImmediateRestart => Mode::UserRestart,
        other => other,
    }
}
