use dm_edge::{NetFault, WireFault};

/// How the outside behaves, and which of its calls fail.
#[derive(Clone, Copy)]
pub struct Outside {
    /// How the first connect fails.
    pub connect: Option<NetFault>,
    /// Which call of each wire fails, sends and receives counted together from 0, and how.
    pub wire: Option<(u64, WireFault)>,
    /// Which write to standard output fails.
    pub out: Option<u64>,
    /// Which write to standard error fails.
    pub errs: Option<u64>,
    /// Each receive gives one byte.
    pub by_byte: bool,
    /// Each connection ends behind so many bytes.
    pub cut: Option<usize>,
    /// So many bytes may be written to standard output.
    pub room: u64,
}

impl Outside {
    pub const SOUND: Outside = Outside {
        connect: None,
        wire: None,
        out: None,
        errs: None,
        by_byte: false,
        cut: None,
        room: 1000,
    };
}

/// How the texts of a run are beside those of its row. Its status is the row's in each case.
#[derive(Clone, Copy)]
pub enum Told {
    /// Both are the row's.
    Exactly,
    /// They are anything.
    Anyhow,
    /// Standard output has a front of the row's, and standard error anything.
    Front,
    /// Standard output begins with the row's, and standard error has the row's.
    More,
    /// Standard output has the row's, and standard error anything.
    Out,
    /// Standard error has the row's, and standard output anything.
    Errs,
}

/// How the requests of a run are beside those of its row.
#[derive(Clone, Copy)]
pub enum Asked {
    /// As many, and each ends with the row's, in order.
    Ends,
    /// As many, and each begins with the row's, in order.
    Fronts,
    /// So many, at most 20.
    Times(u64),
    /// They are anything.
    Anyhow,
}

/// A command, and what it comes to.
#[derive(Clone, Copy)]
pub struct Row<'a> {
    pub words: &'a [&'a [u8]],
    /// What the connections say, one after the other. A connect past them finds no route.
    pub streams: &'a [&'a [u8]],
    pub outside: Outside,
    pub asked: Asked,
    /// Parts of the requests.
    pub sent: &'a [&'a [u8]],
    pub told: Told,
    pub status: u8,
    pub out: &'a [u8],
    pub errs: &'a [u8],
    /// Files that then stand, and what they hold, at most 999 bytes each.
    pub files: &'a [(&'a [u8], &'a [u8])],
}

impl Row<'_> {
    pub const NOTHING: Row<'static> = Row {
        words: &[],
        streams: &[],
        outside: Outside::SOUND,
        asked: Asked::Ends,
        sent: &[],
        told: Told::Exactly,
        status: 0,
        out: b"",
        errs: b"",
        files: &[],
    };
}

/// What is left on a disk.
#[derive(Clone, Copy)]
pub enum Left<'a> {
    /// The journal has just these bytes, at most 999.
    Journal(&'a [u8]),
    /// The journal has so many bytes, or doesn't stand.
    Length(Option<u64>),
    /// A name of the files has just these bytes, at most 999.
    File(&'a [u8], &'a [u8]),
    /// A name of the files has just these bytes, at most 999, or nothing stands there.
    NoneOr(&'a [u8], &'a [u8]),
    /// Whether a file stands under a name.
    Stands(&'a [u8], bool),
}
