ghost use Rattle.std.specs.Prelude.{◌≡◌};
ghost use Rattle.dm_policy.specs.Cause.{reason_of_cause, reason_of_status, reason_of_file};

use dm_types::{DiskKind, Reason};

/// Why an item was interrupted or cancelled, with what was met.
#[derive(Clone, Copy, Debug, PartialEq, Eq)]
pub enum Cause {
    /// A disk call on the part or on the names of the files area failed.
    File(DiskKind),
    /// The name and its hundred forms are taken.
    NamesTaken,
    /// A part and its published file both stand.
    BothStand,
    /// The content is longer than 2^40 bytes: its told total, or 2^40 + 1.
    TooLarge(u64),
    /// The part is shorter than what it is to hold, in bytes.
    PartShort { have: u64, wanted: u64 },
    /// The whole content has another SHA-256 than the stated one.
    DigestDiffers { have: [u8; 32], wanted: [u8; 32] },
    /// A call of the net failed.
    NetFailed,
    /// The stream ended inside a head.
    HeadCut,
    NetTimeout,
    NetNoRoute,
    NetRefused,
    /// A redirect's address, or the kept one, is no good address.
    BadLocation,
    /// An eleventh redirect came.
    TooManyRedirects,
    /// The reply's status (RFC 9110, section 15).
    Status(u16),
    /// The bytes are no reply head.
    BadHead,
    /// The content is encoded (RFC 9110, section 8.4).
    Encoded,
    /// The content's framing is not that of RFC 9112, sections 6.3 and 7.1.
    BadFraming,
    /// The reply to a range request isn't the asked part; with its status.
    RangeRefused(u16),
    /// The stream ended before the content did.
    ContentShort { have: u64, wanted: Option<u64> },
    /// The user cancelled it.
    Cancel,
    /// The program stopped in good order.
    Shutdown,
    /// No memory was left.
    Memory,
    /// The program had stopped without a word.
    Crash,
}

/// The reason that is recorded and shown for a cause.
pub fn reason_of(cause: &Cause) -> Reason
    ensures { result ≡ reason_of_cause cause.now }
{
    match cause {
        Cause::File(kind) => file_reason(*kind),
        Cause::NamesTaken => Reason::FileFailed,
        Cause::BothStand => Reason::FileFailed,
        Cause::TooLarge(_) => Reason::FileTooLarge,
        Cause::PartShort { .. } => Reason::FileTooShort,
        Cause::DigestDiffers { .. } => Reason::FileHashMismatch,
        Cause::NetFailed => Reason::NetworkFailed,
        Cause::HeadCut => Reason::NetworkFailed,
        Cause::NetTimeout => Reason::NetworkTimeout,
        Cause::NetNoRoute => Reason::NetworkDisconnected,
        Cause::NetRefused => Reason::NetworkServerDown,
        Cause::BadLocation => Reason::NetworkInvalidRequest,
        Cause::TooManyRedirects => Reason::NetworkInvalidRequest,
        Cause::Status(status) => status_reason(*status),
        Cause::BadHead => Reason::ServerBadContent,
        Cause::Encoded => Reason::ServerBadContent,
        Cause::BadFraming => Reason::ServerBadContent,
        Cause::RangeRefused(_) => Reason::ServerNoRange,
        Cause::ContentShort { .. } => Reason::ServerContentLengthMismatch,
        Cause::Cancel => Reason::UserCanceled,
        Cause::Shutdown => Reason::UserShutdown,
        Cause::Memory => Reason::NoMemory,
        Cause::Crash => Reason::Crash,
    }
}

/// The reason of a failed disk call.
fn file_reason(kind: DiskKind) -> Reason
    ensures { result ≡ reason_of_file kind }
{
    match kind {
        DiskKind::Failed => Reason::FileFailed,
        DiskKind::Denied => Reason::FileAccessDenied,
        DiskKind::NoSpace => Reason::FileNoSpace,
        DiskKind::NameTooLong => Reason::FileNameTooLong,
    }
}

/// The reason of a status that ends an attempt.
fn status_reason(status: u16) -> Reason
    ensures { result ≡ reason_of_status status }
{
    match status {
        401 | 407 => Reason::ServerUnauthorized,
        403 => Reason::ServerForbidden,
        404 | 410 | 201..=299 => Reason::ServerBadContent,
        416 => Reason::ServerNoRange,
        _ => Reason::ServerFailed,
    }
}
