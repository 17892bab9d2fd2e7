/// How the end of a reply's content is told (RFC 9112, section 6.3).
#[derive(Clone, Copy, Debug, PartialEq, Eq)]
pub enum Framing {
    /// By the chunked transfer coding (RFC 9112, section 7.1).
    Chunked,
    /// By this number of bytes.
    Counted(u64),
    /// By the end of the connection.
    ToEnd,
}
