use dm_chunk::Chunks;

/// How a reply's content is framed, and where its reader stands in it (RFC 9112, section 6.3).
#[derive(Clone, Copy)]
pub enum Body {
    /// It has so many bytes.
    Counted(u64),
    /// It goes on to the connection's end.
    ToEnd,
    /// It comes in chunks.
    Chunked(Chunks),
}
