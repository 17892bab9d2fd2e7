use crate::content::read_file;
use crate::failing::FailList;
use crate::image::{Pick, image_log};
use crate::log::Log;
use crate::meter::Meter;
use dm_disk_model::{Area, Disk, DiskFault, NameList, NamesFault, Place, ends_far};
use dm_types::{Listed, NoMemory};
use std::alloc::Global;

/// A disk in memory. It keeps every call that changed it, and so all that a crash might have left.
#[derive(Drop)]
pub struct MemoryDisk {
    meter: Meter,
    log: Log,
}

impl MemoryDisk {
    ghost use Rattle.std.specs.Prelude.{◌≡◌, [], IsOk, IfOk};
    ghost use Rattle.dm_disk.specs.Calls.{history_of};
    ghost use Rattle.dm_disk.specs.Memory.{history_in, held_in, starved_in, IsFresh};
    ghost use Rattle.dm_disk_model.specs.Disk.{Image, MayLeave, reading};
    ghost use Rattle.dm_disk.specs.Image.{HoldsPicked, HasSame};

    /// An empty disk. These calls of it fail, and from `stop_after` calls on every one.
    pub fn new(
        alloc: Global,
        failing: FailList,
        stop_after: Option<u64>,
    ) -> Result<MemoryDisk, NoMemory>
        ensures empty { IfOk result (λ disk. history_in disk ≡ history_of []) }
        ensures fresh { IfOk result (IsFresh failing stop_after) }
    {
        Ok(MemoryDisk {
            meter: Meter::new(failing, stop_after),
            log: Log::new(alloc),
        })
    }

    /// A disk that holds the picked image of this one, all of it durable, so that a crash leaves no
    /// other. No call of it is to fail.
    pub fn image(&self, alloc: Global, pick: Pick) -> Result<MemoryDisk, NoMemory>
        ensures picked { IfOk result (λ disk. HoldsPicked pick (held_in self.now) (held_in disk)) }
        ensures leaves { IfOk result (λ disk. MayLeave (held_in self.now) (reading (held_in disk))) }
        ensures only { IfOk result (λ disk. (image : Image) → MayLeave (held_in disk) image → HasSame image (reading (held_in disk))) }
        ensures fresh { IfOk result (IsFresh [] None) }
    {
        let log = image_log(alloc, &self.log.calls, pick)?;
        Ok(MemoryDisk {
            meter: Meter::new(Listed::new(alloc), None),
            log,
        })
    }

    /// How many calls failed since they found no memory.
    pub fn starved(&self) -> u64
        ensures { result ≡ starved_in self.now }
    {
        self.meter.starved
    }
}

impl Disk for MemoryDisk {
    ghost use Rattle.dm_disk.specs.SoundCalls.{sound_after};
    ghost use Rattle.std.specs.Prelude.{take};
    ghost use Rattle.dm_disk.specs.Memory.{history_in, held_in, faults_in, far_in, fault_of, names_fault_of, IsInTurn, MayStarve, Writes};
    ghost use Rattle.std.specs.Prelude.{◌≡◌, ◌+◌, ◌<◌, ◌≤◌, ◌^◌, length, IfOk, OnOk, OnErr, IfSome};
    ghost use Rattle.std.specs.Option.{option_map};
    ghost use Rattle.dm_types.specs.Faults.{HasCause};
    ghost use Rattle.dm_disk_model.specs.Disk.{now, folder_in, bytes_at, Stands, StandsNot, Next, CreateStep, WriteStep, SyncStep, RenameStep, RemoveStep, SyncNamesStep, Reads};
    ghost use Rattle.dm_disk_model.specs.Folder.{Lists};
    ghost use Rattle.dm_disk_model.specs.Faults.{disk_kind, names_kind, CountsFar};

    ghost tells = { Unit {0} };

    ghost history = { history_in };

    ghost faults = { faults_in };

    ghost far = { far_in };

    fn names(&mut self, alloc: Global, area: Area) -> Result<NameList, NamesFault>
        ensures listed { IfOk result (Lists (folder_in area (held_in self.old))) }
        ensures stays { history_in self.new ≡ history_in self.old }
        ensures cause { HasCause names_kind (faults_in self.old) (faults_in self.new) result }
        ensures far { far_in self.new ≡ far_in self.old }
        ensures turn { IsInTurn self.old self.new (names_fault_of result) }
    {
        match self.meter.begin() {
            Err(DiskFault(kind)) => Err(NamesFault::Disk(kind)),
            Ok(()) => match self.log.names(alloc, area) {
                Ok(names) => Ok(Listed::from_vec(names)),
                Err(NoMemory) => Err(NamesFault::NoMemory),
            },
        }
    }

    fn length(&mut self, place: &Place) -> Result<Option<u64>, DiskFault>
        ensures length { IfOk result (λ found. found ≡ option_map length (bytes_at (held_in self.old) place.now)) }
        ensures stays { history_in self.new ≡ history_in self.old }
        ensures cause { HasCause disk_kind (faults_in self.old) (faults_in self.new) result }
        ensures far { far_in self.new ≡ far_in self.old }
        ensures turn { IsInTurn self.old self.new (fault_of result) }
    {
        self.meter.begin()?;
        Ok(self.log.length(place))
    }

    fn read_at(&mut self, place: &Place, at: u64, buf: &mut [u8]) -> Result<usize, DiskFault>
        requires { Stands (held_in self.old) place.now }
        ensures within { IfOk result (λ n. n ≤ length buf.old) }
        ensures read { IfOk result (λ n. IfSome (bytes_at (held_in self.old) place.now) (λ file. Reads file at n buf.new)) }
        ensures stays { history_in self.new ≡ history_in self.old }
        ensures cause { HasCause disk_kind (faults_in self.old) (faults_in self.new) result }
        ensures far { far_in self.new ≡ far_in self.old }
        ensures turn { IsInTurn self.old self.new (fault_of result) }
    {
        self.meter.begin()?;
        let standing = self.log.standing_at(place);
        Ok(read_file(&self.log.calls, place.area, standing, at, buf))
    }

    fn create(&mut self, place: &Place) -> Result<(), DiskFault>
        requires { StandsNot (held_in self.old) place.now }
        ensures done { Next (history_in self.old) (history_in self.new) (CreateStep place.now result) }
        ensures kept { OnErr result (history_in self.new ≡ history_in self.old) }
        ensures cause { HasCause disk_kind (faults_in self.old) (faults_in self.new) result }
        ensures far { far_in self.new ≡ far_in self.old }
        ensures turn { MayStarve self.old self.new (fault_of result) }
    {
        self.meter.begin()?;
        match self.log.create(place) {
            Ok(()) => Ok(()),
            Err(NoMemory) => Err(self.meter.starve()),
        }
    }

    fn write_at(&mut self, place: &Place, at: u64, bytes: &[u8]) -> Result<(), DiskFault>
        requires { Stands (held_in self.old) place.now }
        ensures done { Next (history_in self.old) (history_in self.new) (WriteStep place.now at bytes.now result) }
        ensures kept { OnErr result (history_in self.new ≡ history_in self.old) }
        ensures near { OnOk result (at + length bytes.now < 2 ^ 63) }
        ensures cause { HasCause disk_kind (faults_in self.old) (faults_in self.new) result }
        ensures far { CountsFar (at + length bytes.now) (far_in self.old) (far_in self.new) (history_in self.old) (history_in self.new) result }
        ensures turn { Writes (at + length bytes.now) self.old self.new (fault_of result) }
    {
        if ends_far(at, bytes.len()) {
            return Err(self.meter.refuse());
        }
        self.meter.begin()?;
        let file = self.log.file_at(place);
        match self.log.write(place.area, file, at, bytes) {
            Ok(()) => Ok(()),
            Err(NoMemory) => Err(self.meter.starve()),
        }
    }

    fn sync(&mut self, place: &Place) -> Result<(), DiskFault>
        requires { Stands (held_in self.old) place.now }
        ensures done { Next (history_in self.old) (history_in self.new) (SyncStep place.now result) }
        ensures kept { OnErr result (history_in self.new ≡ history_in self.old) }
        ensures cause { HasCause disk_kind (faults_in self.old) (faults_in self.new) result }
        ensures far { far_in self.new ≡ far_in self.old }
        ensures turn { MayStarve self.old self.new (fault_of result) }
    {
        self.meter.begin()?;
        let file = self.log.file_at(place);
        match self.log.sync(place.area, file) {
            Ok(()) => Ok(()),
            Err(NoMemory) => Err(self.meter.starve()),
        }
    }

    fn rename(&mut self, from: &Place, to: &Place) -> Result<(), DiskFault>
        requires stands { Stands (held_in self.old) from.now }
        requires one_area { to.now.area ≡ from.now.area }
        ensures done { Next (history_in self.old) (history_in self.new) (RenameStep from.now to.now result) }
        ensures kept { OnErr result (history_in self.new ≡ history_in self.old) }
        ensures cause { HasCause disk_kind (faults_in self.old) (faults_in self.new) result }
        ensures far { far_in self.new ≡ far_in self.old }
        ensures turn { MayStarve self.old self.new (fault_of result) }
    {
        self.meter.begin()?; // a call that is refused here has recorded nothing
        match self.log.rename(from, to) {
            Ok(()) => Ok(()),
            Err(NoMemory) => Err(self.meter.starve()),
        }
    }

    fn remove(&mut self, place: &Place) -> Result<(), DiskFault>
        requires { Stands (held_in self.old) place.now }
        ensures done { Next (history_in self.old) (history_in self.new) (RemoveStep place.now result) }
        ensures kept { OnErr result (history_in self.new ≡ history_in self.old) }
        ensures cause { HasCause disk_kind (faults_in self.old) (faults_in self.new) result }
        ensures far { far_in self.new ≡ far_in self.old }
        ensures turn { MayStarve self.old self.new (fault_of result) }
    {
        self.meter.begin()?;
        match self.log.remove(place) {
            Ok(()) => Ok(()),
            Err(NoMemory) => Err(self.meter.starve()),
        }
    }

    fn sync_names(&mut self, area: Area) -> Result<(), DiskFault>
        ensures done { Next (history_in self.old) (history_in self.new) (SyncNamesStep area result) }
        ensures kept { OnErr result (history_in self.new ≡ history_in self.old) }
        ensures cause { HasCause disk_kind (faults_in self.old) (faults_in self.new) result }
        ensures far { far_in self.new ≡ far_in self.old }
        ensures turn { MayStarve self.old self.new (fault_of result) }
    {
        self.meter.begin()?;
        match self.log.sync_names(area) {
            Ok(()) => Ok(()),
            Err(NoMemory) => Err(self.meter.starve()),
        }
    }

    ghost sound = { λ told disk t. sound_after (take t disk.log.calls.items) };
}
