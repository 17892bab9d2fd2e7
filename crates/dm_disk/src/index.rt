ghost use Rattle.std.specs.Prelude.{◌≡◌, ◌+◌, ◌<◌, ◌≤◌, ◌^◌, [], ◌∷◌, ◌++◌, map, length, IfOk, OnOk, OnErr, Some, None, vec_len};
ghost use Rattle.std.specs.Vec.{vec_capacity};
ghost use Rattle.dm_disk.specs.declared.call.Act.TheVariants as acts;
ghost use Rattle.dm_disk.specs.Calls.{end_of};
ghost use Rattle.dm_disk.specs.Index.{is_for, look, others_than, names_listed, entry_grown, Sets, Moves, Follows};

use crate::call::{Act, Call};
use crate::find::is_same_area;
use dm_disk_model::Area;
use dm_types::{NoMemory, Text};
use std::alloc::Global;

/// A file that stands under a name.
#[derive(Clone, Copy, Debug)]
pub(crate) struct Standing {
    /// Its number.
    pub file: u64,
    /// Its length in bytes.
    pub size: u64,
}

/// A name that stands.
#[derive(Drop)]
pub(crate) struct Named {
    pub area: Area,
    pub name: Text,
    pub standing: Standing,
}

impl Named {
    fn is_for(&self, area: Area, name: &[u8]) -> bool
        ensures { result ≡ is_for area name.now self.now }
    {
        is_same_area(area, self.area) && self.name.is(name)
    }

    /// Lists the name if it is of this folder.
    fn list(&self, alloc: Global, area: Area, names: &mut Vec<Text>) -> Result<(), NoMemory>
        ensures { OnOk result (names.new.items ≡ names.old.items ++ names_listed area (self.now ∷ [])) }
    {
        if !is_same_area(area, self.area) {
            return Ok(());
        }
        names.push(self.name.copy(alloc)?)?;
        Ok(())
    }

    /// A write on this file ended here.
    fn grow(&mut self, area: Area, file: u64, end: u64)
        ensures { self.new ≡ entry_grown area file end self.old }
    {
        if is_same_area(area, self.area) && self.standing.file == file {
            self.standing.size = self.standing.size.max(end);
        }
    }
}

/// The names that stand in both folders, each once, in no order.
#[derive(Drop)]
pub(crate) struct Index {
    pub entries: Vec<Named>,
}

impl Index {
    pub fn new(alloc: Global) -> Index
        ensures { result.entries.items ≡ [] }
    {
        Index {
            entries: Vec::new(alloc),
        }
    }

    /// What stands under a name.
    pub fn find(&self, area: Area, name: &[u8]) -> Option<Standing>
        ensures { result ≡ look area name.now self.now.entries.items }
    {
        for one in &self.entries {
            if one.is_for(area, name) {
                return Some(one.standing);
            }
        }
        None
    }

    /// The names of one folder.
    pub fn names(&self, alloc: Global, area: Area) -> Result<Vec<Text>, NoMemory>
        ensures { IfOk result (λ names. names.items ≡ names_listed area self.now.entries.items) }
    {
        let mut names = Vec::new(alloc);
        for one in &self.entries {
            one.list(alloc, area, &mut names)?;
        }
        Ok(names)
    }

    /// Follows the call with this number. Where memory is wanting the index stays as it was.
    pub fn follow(&mut self, alloc: Global, number: u64, call: &Call) -> Result<(), NoMemory>
        requires { end_of call.now.act < 2 ^ 63 }
        ensures ok { OnOk result (Follows number call.now.area call.now.act self.old.entries.items self.new.entries.items) }
        ensures err { OnErr result (self.new.entries.items ≡ self.old.entries.items) }
    {
        match &call.act {
            Act::Create { name } => self.create(alloc, number, call.area, name),
            Act::Write { file, at, bytes } => {
                self.grow(call.area, *file, *at + bytes.len() as u64);
                Ok(())
            }
            Act::Sync { .. } => Ok(()),
            Act::Rename { from, to } => self.rename(alloc, call.area, from, to),
            Act::Remove { name } => {
                self.forget(call.area, name.bytes());
                Ok(())
            }
            Act::SyncNames => Ok(()),
        }
    }

    /// A new, empty file has the name.
    fn create(
        &mut self,
        alloc: Global,
        number: u64,
        area: Area,
        name: &Text,
    ) -> Result<(), NoMemory>
        ensures ok { OnOk result (Sets area name.now (Some (record { file = number; size = 0 })) self.old.entries.items self.new.entries.items) }
        ensures err { OnErr result (self.new.entries.items ≡ self.old.entries.items) }
    {
        let standing = Standing {
            file: number,
            size: 0,
        };
        self.put(alloc, area, name, standing)
    }

    /// A write on a file ended here.
    fn grow(&mut self, area: Area, file: u64, end: u64)
        ensures { self.new.entries.items ≡ map (entry_grown area file end) self.old.entries.items }
    {
        grow_each(&mut self.entries, area, file, end);
    }

    /// The one name has what the other had, which has nothing any more.
    fn rename(&mut self, alloc: Global, area: Area, from: &Text, to: &Text) -> Result<(), NoMemory>
        ensures ok { OnOk result (Moves area from.now to.now self.old.entries.items self.new.entries.items) }
        ensures err { OnErr result (self.new.entries.items ≡ self.old.entries.items) }
    {
        self.double(alloc, area, from, to)?;
        if !from.is(to.bytes()) {
            self.forget(area, from.bytes());
        }
        Ok(())
    }

    /// The one name has what the other has.
    fn double(&mut self, alloc: Global, area: Area, from: &Text, to: &Text) -> Result<(), NoMemory>
        ensures ok { OnOk result (Sets area to.now (look area from.now self.old.entries.items) self.old.entries.items self.new.entries.items) }
        ensures err { OnErr result (self.new.entries.items ≡ self.old.entries.items) }
    {
        match self.find(area, from.bytes()) {
            Some(standing) => self.put(alloc, area, to, standing),
            None => {
                self.forget(area, to.bytes());
                Ok(())
            }
        }
    }

    /// Sets what stands under a name.
    fn put(
        &mut self,
        alloc: Global,
        area: Area,
        name: &Text,
        standing: Standing,
    ) -> Result<(), NoMemory>
        ensures ok { OnOk result (Sets area name.now (Some standing) self.old.entries.items self.new.entries.items) }
        ensures err { OnErr result (self.new.entries.items ≡ self.old.entries.items) }
    {
        let copy = name.copy(alloc)?;
        self.entries.reserve(1)?;
        self.forget(area, name.bytes());
        let named = Named {
            area,
            name: copy,
            standing,
        };
        match self.entries.push(named) {
            Ok(()) => Ok(()),
            Err(_) => Err(NoMemory),
        }
    }

    /// Nothing stands under a name. The room stays.
    fn forget(&mut self, area: Area, name: &[u8])
        ensures entries { self.new.entries.items ≡ others_than area name.now self.old.entries.items }
        ensures fewer { vec_len self.new.entries ≤ vec_len self.old.entries }
        ensures room { vec_capacity self.new.entries ≡ vec_capacity self.old.entries }
    {
        self.entries.retain(|one| !one.is_for(area, name));
    }
}

/// A write on a file ended here.
fn grow_each(entries: &mut [Named], area: Area, file: u64, end: u64)
    ensures { entries.new ≡ map (entry_grown area file end) entries.old }
{
    for one in entries.iter_mut() {
        one.grow(area, file, end);
    }
}
