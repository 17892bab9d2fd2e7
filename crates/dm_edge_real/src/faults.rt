use dm_edge::{NetFault, WireFault};
use std::io::ErrorKind;

/// How a send or a receive failed. A socket with a time limit answers `WouldBlock` after it.
pub(crate) fn wire_fault(kind: ErrorKind) -> WireFault {
    match kind {
        ErrorKind::TimedOut | ErrorKind::WouldBlock => WireFault::Timeout,
        ErrorKind::OutOfMemory => WireFault::NoMemory,
        _ => WireFault::Failed,
    }
}

/// How a connection to one address could not be made.
pub(crate) fn net_fault(kind: ErrorKind) -> NetFault {
    match kind {
        ErrorKind::HostUnreachable | ErrorKind::NetworkUnreachable => NetFault::NoRoute,
        ErrorKind::ConnectionRefused => NetFault::Refused,
        ErrorKind::TimedOut | ErrorKind::WouldBlock => NetFault::Timeout,
        ErrorKind::OutOfMemory => NetFault::NoMemory,
        _ => NetFault::Failed,
    }
}

/// How a host's addresses could not be had: it has none, but for want of memory.
pub(crate) fn lookup_fault(kind: ErrorKind) -> NetFault {
    match kind {
        ErrorKind::OutOfMemory => NetFault::NoMemory,
        _ => NetFault::NoRoute,
    }
}
