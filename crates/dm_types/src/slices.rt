ghost use Rattle.std.specs.Prelude.{◌≡◌, ◌<◌, ◌≤◌, ◌++◌, ◌∷◌, [], List, length, OnOk, OnErr, slice_get};
ghost use Rattle.std.specs.Option.{option_copied};

use crate::NoMemory;
use std::alloc::Global;
use std::marker::Model;

/// How many slices an item has at most.
pub const MOST_SLICES: usize = 64;

/// A run of content bytes that were received: `got` bytes from the place `first` on.
#[derive(Clone, Copy, Debug, PartialEq, Eq)]
pub struct Slice {
    pub first: u64,
    pub got: u64,
    /// The run has bytes and ends where the content ends.
    pub finished: bool,
}

/// At most 64 slices.
#[derive(Debug, Drop)]
pub struct Slices {
    items: Vec<Slice>,
}

impl Model for Slices {
    ghost use Rattle.std.specs.Prelude.{List, length, ◌≤◌};
    ghost use Rattle.dm_types.specs.declared.slices.Slice.{Slice};

    ghost Value = { List Slice };

    ghost view = { λ s. s.items.items };

    ghost invariant = { λ s. length s.items.items ≤ 64 };
}

impl Slices {
    /// No slices. It takes no memory.
    pub fn new(alloc: Global) -> Slices
        ensures { result ≡ [] }
    {
        Slices {
            items: Vec::new(alloc),
        }
    }

    /// Adds a slice at the end. Where memory is wanting the list stays.
    pub fn push(&mut self, slice: Slice) -> Result<(), NoMemory>
        requires { length self.old < 64 }
        ensures ok { OnOk result (self.new ≡ self.old ++ slice ∷ []) }
        ensures err { OnErr result (self.new ≡ self.old) }
    {
        match self.items.push(slice) {
            Ok(()) => Ok(()),
            Err(_) => Err(NoMemory),
        }
    }

    /// How many slices there are.
    pub fn count(&self) -> u64
        ensures count { result ≡ length self.now }
        ensures most { result ≤ 64 }
    {
        self.items.len() as u64
    }

    /// The slice at a place, counted from 0, where there is one.
    pub fn get(&self, place: u64) -> Option<&Slice>
        ensures { option_copied result ≡ slice_get self.now place }
    {
        self.items.get(place as usize)
    }

    /// All of them, in order.
    pub fn items(&self) -> &[Slice]
        ensures items { result.now ≡ self.now }
        ensures most { length result.now ≤ 64 }
    {
        &self.items
    }
}
