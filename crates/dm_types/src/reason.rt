ghost use Rattle.std.specs.Prelude.{◌≡◌, ◌≢◌, IfSome, IfNone};
ghost use Rattle.dm_types.specs.declared.reason.Reason.{Reason};

/// Why an item was interrupted or cancelled. Names and numbers are `dm`'s own.
#[derive(Clone, Copy, Debug, PartialEq, Eq)]
pub enum Reason {
    FileFailed,
    FileAccessDenied,
    FileNoSpace,
    FileNameTooLong,
    FileTooLarge,
    FileTooShort,
    FileHashMismatch,
    NetworkFailed,
    NetworkTimeout,
    NetworkDisconnected,
    NetworkServerDown,
    NetworkInvalidRequest,
    ServerFailed,
    ServerNoRange,
    ServerBadContent,
    ServerUnauthorized,
    ServerForbidden,
    ServerContentLengthMismatch,
    UserCanceled,
    UserShutdown,
    Crash,
    NoMemory,
}

impl Reason {
    ghost use Rattle.dm_types.specs.Reason.{code_of, name_of};

    /// The number that is printed and recorded.
    pub fn code(self) -> u16
        ensures { result ≡ code_of self }
    {
        match self {
            Reason::FileFailed => 1,
            Reason::FileAccessDenied => 2,
            Reason::FileNoSpace => 3,
            Reason::FileNameTooLong => 5,
            Reason::FileTooLarge => 6,
            Reason::FileTooShort => 13,
            Reason::FileHashMismatch => 14,
            Reason::NetworkFailed => 20,
            Reason::NetworkTimeout => 21,
            Reason::NetworkDisconnected => 22,
            Reason::NetworkServerDown => 23,
            Reason::NetworkInvalidRequest => 24,
            Reason::ServerFailed => 30,
            Reason::ServerNoRange => 31,
            Reason::ServerBadContent => 33,
            Reason::ServerUnauthorized => 34,
            Reason::ServerForbidden => 36,
            Reason::ServerContentLengthMismatch => 38,
            Reason::UserCanceled => 40,
            Reason::UserShutdown => 41,
            Reason::Crash => 50,
            Reason::NoMemory => 60,
        }
    }

    /// The name that is printed.
    pub fn name(self) -> &'static str
        ensures { result.now ≡ name_of self }
    {
        match self {
            Reason::FileFailed => "FILE_FAILED",
            Reason::FileAccessDenied => "FILE_ACCESS_DENIED",
            Reason::FileNoSpace => "FILE_NO_SPACE",
            Reason::FileNameTooLong => "FILE_NAME_TOO_LONG",
            Reason::FileTooLarge => "FILE_TOO_LARGE",
            Reason::FileTooShort => "FILE_TOO_SHORT",
            Reason::FileHashMismatch => "FILE_HASH_MISMATCH",
            Reason::NetworkFailed => "NETWORK_FAILED",
            Reason::NetworkTimeout => "NETWORK_TIMEOUT",
            Reason::NetworkDisconnected => "NETWORK_DISCONNECTED",
            Reason::NetworkServerDown => "NETWORK_SERVER_DOWN",
            Reason::NetworkInvalidRequest => "NETWORK_INVALID_REQUEST",
            Reason::ServerFailed => "SERVER_FAILED",
            Reason::ServerNoRange => "SERVER_NO_RANGE",
            Reason::ServerBadContent => "SERVER_BAD_CONTENT",
            Reason::ServerUnauthorized => "SERVER_UNAUTHORIZED",
            Reason::ServerForbidden => "SERVER_FORBIDDEN",
            Reason::ServerContentLengthMismatch => "SERVER_CONTENT_LENGTH_MISMATCH",
            Reason::UserCanceled => "USER_CANCELED",
            Reason::UserShutdown => "USER_SHUTDOWN",
            Reason::Crash => "CRASH",
            Reason::NoMemory => "NO_MEMORY",
        }
    }

    /// The reason with this number, where one has it.
    pub fn from_code(code: u16) -> Option<Reason>
        ensures some { IfSome result (λ reason. code_of reason ≡ code) }
        ensures none { IfNone result ((reason : Reason) → code_of reason ≢ code) }
    {
        Some(match code {
            1 => Reason::FileFailed,
            2 => Reason::FileAccessDenied,
            3 => Reason::FileNoSpace,
            5 => Reason::FileNameTooLong,
            6 => Reason::FileTooLarge,
            13 => Reason::FileTooShort,
            14 => Reason::FileHashMismatch,
            20 => Reason::NetworkFailed,
            21 => Reason::NetworkTimeout,
            22 => Reason::NetworkDisconnected,
            23 => Reason::NetworkServerDown,
            24 => Reason::NetworkInvalidRequest,
            30 => Reason::ServerFailed,
            31 => Reason::ServerNoRange,
            33 => Reason::ServerBadContent,
            34 => Reason::ServerUnauthorized,
            36 => Reason::ServerForbidden,
            38 => Reason::ServerContentLengthMismatch,
            40 => Reason::UserCanceled,
            41 => Reason::UserShutdown,
            50 => Reason::Crash,
            60 => Reason::NoMemory,
            _ => return None,
        })
    }
}
