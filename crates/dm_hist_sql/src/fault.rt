use dm_hist::KeeperFault;
use sqlite::{Error, ErrorCode};

/// What a refusal of SQLite is to a keeper: want of memory, or a failure.
pub(crate) fn keeper_fault(error: Error) -> KeeperFault {
    match error {
        Error::SqliteFailure(ErrorCode::OutOfMemory) => KeeperFault::NoMemory,
        _ => KeeperFault::Failed,
    }
}
