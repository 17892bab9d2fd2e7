//! What follows from the disk model, for every disk and every image.
ghost use Rattle.std.specs.Prelude.{◌≡◌, ◌≢◌, ◌↔◌, ℕ, List, Result};
ghost use Rattle.dm_disk_model.specs.File.{IsWritten, IsTorn, IsSynced};
ghost use Rattle.dm_disk_model.specs.Folder.{Folder, FolderLeaves, FileSteps, Changes, Creates, SyncsNames, Change};
ghost use Rattle.dm_disk_model.specs.Disk.{DiskState, Image, IsSoundDisk, MayLeave, now, reading, CreateStep, WriteStep, SyncStep, RenameStep, RemoveStep, SyncNamesStep};
ghost use Rattle.dm_disk_model.specs.Laws.{OtherStays, OthersLeaveSame};
ghost use Rattle.dm_disk_model.specs.Beside.{LeftAsBefore, NeverShares};
ghost use Rattle.dm_disk_model.specs.declared.place.Area.{Area as TheArea};
ghost use Rattle.dm_disk_model.specs.declared.place.Place.{Place as ThePlace};
ghost use Rattle.dm_disk_model.specs.declared.place.DiskFault.{DiskFault as TheFault};

use dm_disk_model::Disk;

/// A disk as it reads is one of the images that a crash may leave of it.
pub fn reads_as_an_image<D: Disk>(disk: &D)
    ensures { D.tells → MayLeave (now (D.history disk.now)) (reading (now (D.history disk.now))) }
{}

/// Each image is made of what the one folder may leave and of what the other may.
pub fn images_are_made_of_both()
    ensures { (disk : DiskState) (image : Image) → MayLeave disk image ↔ (FolderLeaves disk.state image.state × FolderLeaves disk.files image.files) }
{}

/// A call changes what may be left in its own folder alone, whatever it answers.
pub fn calls_stay_in_their_folder()
    ensures create { (place : ThePlace) (result : Result (Unit {0}) TheFault) (old new : DiskState) → CreateStep place result old new → OtherStays place.area old new }
    ensures write { (place : ThePlace) (at : ℕ) (bytes : List ℕ) (result : Result (Unit {0}) TheFault) (old new : DiskState) → WriteStep place at bytes result old new → OtherStays place.area old new }
    ensures sync { (place : ThePlace) (result : Result (Unit {0}) TheFault) (old new : DiskState) → SyncStep place result old new → OtherStays place.area old new }
    ensures rename { (from to : ThePlace) (result : Result (Unit {0}) TheFault) (old new : DiskState) → RenameStep from to result old new → OtherStays from.area old new }
    ensures remove { (place : ThePlace) (result : Result (Unit {0}) TheFault) (old new : DiskState) → RemoveStep place result old new → OtherStays place.area old new }
    ensures sync_names { (area : TheArea) (result : Result (Unit {0}) TheFault) (old new : DiskState) → SyncNamesStep area result old new → OtherStays area old new }
{}

/// A write, also one that was only begun, and a sync change no file but their own, under whichever
/// name that file survives.
pub fn writes_stay_in_their_file()
    ensures write { (name : List ℕ) (at : ℕ) (bytes : List ℕ) (old new : Folder) → FileSteps name (IsWritten at bytes) old new → OthersLeaveSame name old new }
    ensures begun { (name : List ℕ) (at count : ℕ) (old new : Folder) → FileSteps name (IsTorn at count) old new → OthersLeaveSame name old new }
    ensures sync { (name : List ℕ) (old new : Folder) → FileSteps name IsSynced old new → OthersLeaveSame name old new }
{}

/// A change of names leaves the bytes of every file that keeps a name.
pub fn names_leave_the_bytes()
    ensures change { (change : Change) (old new : Folder) → Changes change old new → (number : ℕ) → new.file number ≡ old.file number }
    ensures create { (name : List ℕ) (old new : Folder) → (made : Creates name old new) → (number : ℕ) → number ≢ made.number → new.file number ≡ old.file number }
    ensures sync { (old new : Folder) → SyncsNames old new → (number : ℕ) → new.file number ≡ old.file number }
{}

/// Under a name that a call doesn't name, a crash leaves among the user's files what it might have
/// left there before. A write or a sync changes another file than any that the name may have.
pub fn other_names_are_left()
    ensures create { (name : List ℕ) (place : ThePlace) (result : Result (Unit {0}) TheFault) (old new : DiskState) → IsSoundDisk old → place.name ≢ name → CreateStep place result old new → LeftAsBefore name old.files new.files }
    ensures write { (name : List ℕ) (place : ThePlace) (at : ℕ) (bytes : List ℕ) (result : Result (Unit {0}) TheFault) (old new : DiskState) → IsSoundDisk old → NeverShares name place.name old.files → WriteStep place at bytes result old new → LeftAsBefore name old.files new.files }
    ensures sync { (name : List ℕ) (place : ThePlace) (result : Result (Unit {0}) TheFault) (old new : DiskState) → IsSoundDisk old → NeverShares name place.name old.files → SyncStep place result old new → LeftAsBefore name old.files new.files }
    ensures rename { (name : List ℕ) (from to : ThePlace) (result : Result (Unit {0}) TheFault) (old new : DiskState) → IsSoundDisk old → from.name ≢ name → to.name ≢ name → RenameStep from to result old new → LeftAsBefore name old.files new.files }
    ensures remove { (name : List ℕ) (place : ThePlace) (result : Result (Unit {0}) TheFault) (old new : DiskState) → IsSoundDisk old → place.name ≢ name → RemoveStep place result old new → LeftAsBefore name old.files new.files }
    ensures sync_names { (name : List ℕ) (area : TheArea) (result : Result (Unit {0}) TheFault) (old new : DiskState) → IsSoundDisk old → SyncNamesStep area result old new → LeftAsBefore name old.files new.files }
{}
