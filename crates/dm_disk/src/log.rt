ghost use Rattle.std.specs.Prelude.{◌≡◌, ◌++◌, ◌∷◌, [], ◌<◌, ◌+◌, ◌^◌, ℕ, length, IfOk, OnOk, OnErr, Some, IsSome};
ghost use Rattle.std.specs.Option.{option_map};
ghost use Rattle.dm_disk_model.specs.Disk.{folder_in, bytes_at};
ghost use Rattle.dm_disk_model.specs.Folder.{names_of, Lists};
ghost use Rattle.dm_disk.specs.Calls.{disk_after, end_of, most_end};
ghost use Rattle.dm_disk.specs.Index.{IsIndexOf};
ghost use Rattle.dm_disk.specs.Look.{file_in};
ghost use Rattle.dm_disk.specs.declared.call.Act.TheVariants as acts;

use crate::call::{Act, Call};
use crate::index::{Index, Standing};
use dm_disk_model::{Area, Place};
use dm_types::{NoMemory, Text};
use std::alloc::Global;

/// The calls that changed the disk, in order. Each is one moment of its history. Beside them stands
/// an index of the names that they leave. Where memory is wanting nothing is recorded.
#[derive(Drop)]
pub(crate) struct Log {
    pub alloc: Global,
    pub calls: Vec<Call>,
    pub index: Index,
    ghost near: { most_end calls.items < 2 ^ 63 },
    ghost told: { IsIndexOf (disk_after calls.items) index.entries.items },
}

impl Log {
    pub fn new(alloc: Global) -> Log
        ensures { result.calls.items ≡ [] }
    {
        Log {
            alloc,
            calls: Vec::new(alloc),
            index: Index::new(alloc),
        }
    }

    pub fn push(&mut self, call: Call) -> Result<(), NoMemory>
        requires { end_of call.act < 2 ^ 63 }
        ensures ok { OnOk result (self.new.calls.items ≡ self.old.calls.items ++ call ∷ []) }
        ensures err { OnErr result (self.new.calls.items ≡ self.old.calls.items) }
    {
        self.calls.reserve(1)?;
        self.index
            .follow(self.alloc, self.calls.len() as u64, &call)?;
        match self.calls.push(call) {
            Ok(()) => Ok(()),
            Err(_) => Err(NoMemory),
        }
    }

    pub fn create(&mut self, place: &Place) -> Result<(), NoMemory>
        ensures ok { OnOk result (self.new.calls.items ≡ self.old.calls.items ++ record { area = place.now.area; act = acts.Create place.now.name } ∷ []) }
        ensures err { OnErr result (self.new.calls.items ≡ self.old.calls.items) }
    {
        let name = place.name.copy(self.alloc)?;
        self.push(Call {
            area: place.area,
            act: Act::Create { name },
        })
    }

    pub fn write(&mut self, area: Area, file: u64, at: u64, bytes: &[u8]) -> Result<(), NoMemory>
        requires { at + length bytes.now < 2 ^ 63 }
        ensures ok { OnOk result (self.new.calls.items ≡ self.old.calls.items ++ record { area = area; act = acts.Write file at bytes.now } ∷ []) }
        ensures err { OnErr result (self.new.calls.items ≡ self.old.calls.items) }
    {
        let bytes = Text::from_bytes(self.alloc, bytes)?;
        self.push(Call {
            area,
            act: Act::Write { file, at, bytes },
        })
    }

    pub fn sync(&mut self, area: Area, file: u64) -> Result<(), NoMemory>
        ensures ok { OnOk result (self.new.calls.items ≡ self.old.calls.items ++ record { area = area; act = acts.Sync file } ∷ []) }
        ensures err { OnErr result (self.new.calls.items ≡ self.old.calls.items) }
    {
        self.push(Call {
            area,
            act: Act::Sync { file },
        })
    }

    pub fn rename(&mut self, from: &Place, to: &Place) -> Result<(), NoMemory>
        ensures ok { OnOk result (self.new.calls.items ≡ self.old.calls.items ++ record { area = from.now.area; act = acts.Rename from.now.name to.now.name } ∷ []) }
        ensures err { OnErr result (self.new.calls.items ≡ self.old.calls.items) }
    {
        let area = from.area;
        let from = from.name.copy(self.alloc)?;
        let to = to.name.copy(self.alloc)?;
        self.push(Call {
            area,
            act: Act::Rename { from, to },
        })
    }

    pub fn remove(&mut self, place: &Place) -> Result<(), NoMemory>
        ensures ok { OnOk result (self.new.calls.items ≡ self.old.calls.items ++ record { area = place.now.area; act = acts.Remove place.now.name } ∷ []) }
        ensures err { OnErr result (self.new.calls.items ≡ self.old.calls.items) }
    {
        let name = place.name.copy(self.alloc)?;
        self.push(Call {
            area: place.area,
            act: Act::Remove { name },
        })
    }

    pub fn sync_names(&mut self, area: Area) -> Result<(), NoMemory>
        ensures ok { OnOk result (self.new.calls.items ≡ self.old.calls.items ++ record { area = area; act = acts.SyncNames } ∷ []) }
        ensures err { OnErr result (self.new.calls.items ≡ self.old.calls.items) }
    {
        self.push(Call {
            area,
            act: Act::SyncNames,
        })
    }

    /// The names that stand in a folder.
    pub fn names(&self, alloc: Global, area: Area) -> Result<Vec<Text>, NoMemory>
        ensures { IfOk result (λ names. Lists (folder_in area (disk_after self.now.calls.items)) names.items) }
    {
        self.index.names(alloc, area)
    }

    /// The length of the file at a place, where one stands.
    pub fn length(&self, place: &Place) -> Option<u64>
        ensures { result ≡ option_map length (bytes_at (disk_after self.now.calls.items) place.now) }
    {
        match self.index.find(place.area, place.name.bytes()) {
            Some(standing) => Some(standing.size),
            None => None,
        }
    }

    /// The file that stands at a place.
    pub fn standing_at(&self, place: &Place) -> Standing
        requires { IsSome (names_of (folder_in place.now.area (disk_after self.now.calls.items)) place.now.name) }
        ensures file { names_of (folder_in place.now.area (disk_after self.now.calls.items)) place.now.name ≡ Some result.file }
        ensures size { result.size ≡ length (file_in place.now.area result.file (disk_after self.now.calls.items)).bytes }
        ensures near { result.size < 2 ^ 63 }
    {
        self.index.find(place.area, place.name.bytes()).unwrap()
    }

    /// The number of the file that stands at a place.
    pub fn file_at(&self, place: &Place) -> u64
        requires { IsSome (names_of (folder_in place.now.area (disk_after self.now.calls.items)) place.now.name) }
        ensures { names_of (folder_in place.now.area (disk_after self.now.calls.items)) place.now.name ≡ Some result }
    {
        self.standing_at(place).file
    }
}
