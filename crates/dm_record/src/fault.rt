ghost use Rattle.std.specs.Prelude.{◌≡◌};
ghost use Rattle.dm_record.specs.declared.fault.Stop.TheVariants as stops;

use dm_types::NoMemory;
use std::error::Error;
use std::fmt;

/// Why bytes are no entry.
#[derive(Clone, Copy, Debug, PartialEq, Eq)]
pub enum RecordFault {
    /// They end inside an entry: with more bytes they would be one.
    Short,
    /// No entry goes on with the byte at this place, counted from 0.
    Bad(usize),
    NoMemory,
}

impl fmt::Display for RecordFault {
    fn fmt<W: fmt::Write>(&self, f: &mut fmt::Formatter<W>) -> fmt::Result {
        f.write_str(match self {
            RecordFault::Short => "the bytes end inside an entry",
            RecordFault::Bad(_) => "no entry goes on so",
            RecordFault::NoMemory => "no memory",
        })
    }
}

impl Error for RecordFault {}

/// Why a field was not read.
#[derive(Clone, Copy)]
pub(crate) enum Stop {
    Short,
    /// No field goes on with the byte at which this many bytes are left.
    Stray(usize),
    NoMemory,
}

impl From<NoMemory> for Stop {
    ghost from_gives = { λ _ stop. stop ≡ stops.NoMemory };

    fn from(_: NoMemory) -> Stop {
        Stop::NoMemory
    }
}
