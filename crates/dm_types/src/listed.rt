ghost use Rattle.std.specs.Prelude.{◌≡◌, ◌++◌, ◌∷◌, [], List, length, OnOk, OnErr, slice_get};
ghost use Rattle.std.specs.Option.{option_copied};

use crate::NoMemory;
use std::alloc::Global;
use std::marker::Model;

/// A list that grows at its end. Places count from 0.
#[derive(Debug, Drop)]
pub struct Listed<T: Drop> {
    items: Vec<T>,
}

/// Numbers in order: call numbers, moments in milliseconds, cuts in bytes.
pub type NumberList = Listed<u64>;

impl<T: Drop> Model for Listed<T> {
    ghost Value = { List T };

    ghost view = { λ l. l.items.items };
}

impl<T: Drop> Listed<T> {
    /// The empty list. It takes no memory.
    pub fn new(alloc: Global) -> Listed<T>
        ensures { result ≡ [] }
    {
        Listed {
            items: Vec::new(alloc),
        }
    }

    /// The vector's items, with no copy.
    pub fn from_vec(items: Vec<T>) -> Listed<T>
        ensures { result ≡ items.items }
    {
        Listed { items }
    }

    /// The list's vector, with no copy.
    pub fn into_vec(self) -> Vec<T>
        ensures { result.items ≡ self }
    {
        let Listed { items } = self;
        items
    }

    /// Adds a value at the end. Where memory is wanting the list stays, and the value is dropped.
    pub fn push(&mut self, value: T) -> Result<(), NoMemory>
        ensures ok { OnOk result (self.new ≡ self.old ++ value ∷ []) }
        ensures err { OnErr result (self.new ≡ self.old) }
    {
        match self.items.push(value) {
            Ok(()) => Ok(()),
            Err(_) => Err(NoMemory),
        }
    }

    /// How many values there are.
    pub fn count(&self) -> u64
        ensures { result ≡ length self.now }
    {
        self.items.len() as u64
    }

    /// The value at a place, where there is one.
    pub fn get(&self, place: u64) -> Option<&T>
        ensures { option_copied result ≡ slice_get self.now place }
    {
        self.items.get(place as usize)
    }

    /// All of them, in order.
    pub fn items(&self) -> &[T]
        ensures { result.now ≡ self.now }
    {
        &self.items
    }
}
