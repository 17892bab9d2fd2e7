use dm_types::{NoMemory, Text};
use std::alloc::{AllocError, AllocFailed, Global};
use std::env::{Env, FillError};

/// More than the system takes as one word (131,072 bytes with its end).
const MOST: usize = 131_072;

/// Why the words could not be read.
#[derive(Clone, Copy, Debug, PartialEq, Eq)]
pub enum WordsFault {
    /// A word is longer than the system allows.
    TooLong,
    NoMemory,
}

impl From<AllocError> for WordsFault {
    fn from(_: AllocError) -> WordsFault {
        WordsFault::NoMemory
    }
}

impl<T: Drop> From<AllocFailed<T>> for WordsFault {
    fn from(_: AllocFailed<T>) -> WordsFault {
        WordsFault::NoMemory
    }
}

impl From<NoMemory> for WordsFault {
    fn from(_: NoMemory) -> WordsFault {
        WordsFault::NoMemory
    }
}

/// The words after the program's own name, as bytes: they need not be UTF-8.
pub fn read_words(rt: &impl Env, alloc: Global) -> Result<Vec<Text>, WordsFault> {
    let mut words = Vec::new(alloc);
    let mut buffer = vec![in alloc; 0; MOST]?;
    for place in 1..usize::MAX {
        match rt.arg(place, &mut buffer) {
            Ok(length) => words.push(Text::from_bytes(alloc, &buffer[..length])?)?,
            Err(FillError::NotPresent) => break,
            Err(FillError::TooLong) => return Err(WordsFault::TooLong),
        }
    }
    Ok(words)
}
