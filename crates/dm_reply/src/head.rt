use dm_policy::Cause;
use dm_types::Text;

/// What a reply's head leads to.
#[derive(Debug, Drop)]
pub enum Kind {
    /// Content follows.
    Content,
    /// The content is asked at another address: the Location as it stands (RFC 9110, section 10.2.2).
    Redirect(Text),
}

/// What a reply's head says.
#[derive(Debug, Drop)]
pub struct Head {
    pub kind: Kind,
    /// The status (RFC 9110, section 15).
    pub status: u16,
    /// The strong entity tag with its quotes: the only ETag, where it is a tag, not a weak one, and has
    /// at most 1,024 bytes (RFC 9110, section 8.8.3).
    pub strong: Option<Text>,
    /// The content's first place: 0 but for a part.
    pub first: u64,
    /// The content's last place, of a part.
    pub last: Option<u64>,
    /// How many bytes the whole content has, where the head tells it: at most 2^40.
    pub total: Option<u64>,
    /// Whether ranges of the content are given: some Accept-Ranges names bytes (RFC 9110, section 14.3).
    pub ranges: bool,
    /// The value of Content-Disposition as it stands, where exactly one such field does (RFC 6266).
    pub disposition: Option<Text>,
    /// The value of Last-Modified, where exactly one such field stands and it has at most 128 bytes; else
    /// it is empty.
    pub modified: Text,
}

/// Why no head was read.
#[derive(Clone, Copy, Debug, PartialEq, Eq)]
pub enum HeadFault {
    Broke(Cause),
    NoMemory,
}
