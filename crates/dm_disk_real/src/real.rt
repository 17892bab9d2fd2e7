ghost use Rattle.std.specs.Prelude.{◌≡◌, IfOk};
ghost use Rattle.dm_disk_model.specs.Counts.{count_of};
ghost use Rattle.dm_disk_real.specs.Counts.{none_failed, untold};

use crate::Counts;
use crate::counts::kind_of_error;
use crate::fault::FolderFault;
use crate::folder::Folder;
use dm_disk_model::{Area, Disk, DiskFault, NameList, NamesFault, Place, ends_far};
use dm_types::DiskKind;
use std::alloc::Global;
use std::fs::File;
use std::marker::Model;
use std::rt::Files;

/// A disk over two folders of the operating system. Contracts see it as the counts of its faults:
/// it tells nothing of what its folders hold.
#[derive(Drop)]
pub struct RealDisk<R: Files<File = File> + Drop> {
    rt: R,
    folders: Folders,
    counts: Counts,
}

#[derive(Drop)]
struct Folders {
    state: Folder,
    files: Folder,
}

impl<R: Files<File = File> + Drop> Model for RealDisk<R> {
    ghost use Rattle.dm_disk_real.specs.declared.counts.Counts.{Counts as Seen};

    ghost Value = { Seen };

    ghost view = { λ disk. disk.counts };
}

impl Folders {
    fn at(&mut self, area: Area) -> &mut Folder {
        match area {
            Area::State => &mut self.state,
            Area::Files => &mut self.files,
        }
    }
}

impl<R: Files<File = File> + Drop> RealDisk<R> {
    /// The disk over these two folders, which are made where they are missing. The folders that
    /// they stand in have to stand. The state folder is locked for as long as the disk is held, and
    /// nothing is made or synced where another program holds it. No count exists before the disk
    /// does, so a fault here has none.
    pub fn new(rt: R, alloc: Global, state: &str, files: &str) -> Result<RealDisk<R>, NamesFault>
        ensures { IfOk result (λ disk. disk ≡ none_failed) }
    {
        let mut state = Folder::new(&rt, alloc, state)?;
        state.lock()?;
        let mut files = Folder::new(&rt, alloc, files)?;
        state.sync_above(&rt)?;
        files.sync_above(&rt)?;
        Ok(RealDisk {
            rt,
            folders: Folders { state, files },
            counts: Counts::new(),
        })
    }
}

impl From<FolderFault> for NamesFault {
    ghost use Rattle.std.specs.Prelude.{◌≡◌};
    ghost use Rattle.dm_disk_real.specs.Faults.{names_fault};

    ghost from_gives = { λ fault answer. answer ≡ names_fault fault };

    fn from(fault: FolderFault) -> NamesFault {
        match fault {
            FolderFault::System(e) => NamesFault::Disk(kind_of_error(&e)),
            FolderFault::NoMemory => NamesFault::NoMemory,
        }
    }
}

impl<R: Files<File = File> + Drop> Disk for RealDisk<R> {
    ghost tells = { ⊥ };

    ghost history = { λ _. untold };

    ghost faults = { λ counts. count_of counts.kinds };

    ghost far = { λ counts. counts.far };

    ghost sound = { λ told. absurd told };

    fn names(&mut self, alloc: Global, area: Area) -> Result<NameList, NamesFault> {
        match self.folders.at(area).names(&self.rt, alloc) {
            Ok(names) => Ok(names),
            Err(FolderFault::NoMemory) => Err(NamesFault::NoMemory),
            Err(FolderFault::System(e)) => {
                let fault = self.counts.kinds.fail(kind_of_error(&e));
                Err(NamesFault::Disk(fault.0))
            }
        }
    }

    fn length(&mut self, place: &Place) -> Result<Option<u64>, DiskFault> {
        let answer = self.folders.at(place.area).length(&self.rt, &place.name);
        self.counts.answer(answer)
    }

    fn read_at(&mut self, place: &Place, at: u64, buf: &mut [u8]) -> Result<usize, DiskFault> {
        let answer = self
            .folders
            .at(place.area)
            .read_at(&self.rt, &place.name, at, buf);
        self.counts.answer(answer)
    }

    fn create(&mut self, place: &Place) -> Result<(), DiskFault> {
        let answer = self.folders.at(place.area).create(&self.rt, &place.name);
        self.counts.answer(answer)
    }

    fn write_at(&mut self, place: &Place, at: u64, bytes: &[u8]) -> Result<(), DiskFault> {
        if ends_far(at, bytes.len()) {
            return Err(self.counts.refuse_far());
        }
        let answer = self
            .folders
            .at(place.area)
            .write_at(&self.rt, &place.name, at, bytes);
        self.counts.answer(answer)
    }

    fn sync(&mut self, place: &Place) -> Result<(), DiskFault> {
        let answer = self.folders.at(place.area).sync(&self.rt, &place.name);
        self.counts.answer(answer)
    }

    fn rename(&mut self, from: &Place, to: &Place) -> Result<(), DiskFault> {
        if from.area != to.area {
            return Err(self.counts.kinds.fail(DiskKind::Failed));
        }
        let folder = self.folders.at(from.area);
        let answer = match from.area {
            Area::State => folder.rename(&self.rt, &from.name, &to.name),
            Area::Files => folder.rename_to_free(&self.rt, &from.name, &to.name),
        };
        self.counts.answer(answer)
    }

    fn remove(&mut self, place: &Place) -> Result<(), DiskFault> {
        let answer = self.folders.at(place.area).remove(&self.rt, &place.name);
        self.counts.answer(answer)
    }

    fn sync_names(&mut self, area: Area) -> Result<(), DiskFault> {
        let answer = self.folders.at(area).sync_names();
        self.counts.answer(answer)
    }
}
