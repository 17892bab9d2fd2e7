/// A read or a write on an edge failed.
#[derive(Clone, Copy, Debug, PartialEq, Eq)]
pub enum EdgeFault {
    Failed,
}

/// How a call on a wire failed.
#[derive(Clone, Copy, Debug, PartialEq, Eq)]
pub enum WireFault {
    /// The connection broke.
    Failed,
    /// Nothing came for 30 seconds.
    Timeout,
    /// The wire had no memory for it.
    NoMemory,
}

/// How a connection could not be made, or, as a count, how a closed wire failed.
#[derive(Clone, Copy, Debug, PartialEq, Eq)]
pub enum NetFault {
    /// The host has no address, or none that can be reached.
    NoRoute,
    /// The host refused the connection.
    Refused,
    /// The host didn't answer for 30 seconds.
    Timeout,
    /// Any other failure.
    Failed,
    /// The net had no memory for it.
    NoMemory,
}
