/// The most bytes of a reply's content.
pub const MOST_CONTENT: u64 = 1 << 40;

/// The most bytes of a head, with its empty line.
pub const MOST_HEAD: usize = 65_536;

/// The most fields of a head.
pub const MOST_FIELDS: usize = 100;

/// The most interim heads that are passed over.
pub const MOST_INTERIM: u32 = 8;

/// The most bytes of an entity tag that is kept, with its quotes.
pub const MOST_TAG: usize = 1_024;

/// The most bytes of a Last-Modified that is kept.
pub const MOST_MODIFIED: usize = 128;
