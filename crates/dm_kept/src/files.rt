ghost use Rattle.std.specs.Prelude.{◌≡◌, ℕ, Bool, List, []};
ghost use Rattle.dm_types.specs.declared.item.Key.{Key};
ghost use Rattle.dm_disk_model.specs.Disk.{DiskState, Image, IsSoundDisk, MayLeave};
ghost use Rattle.dm_disk_model.specs.Folder.{contents_of};
ghost use Rattle.dm_disk_model.specs.Firm.{IsAbsent};
ghost use Rattle.dm_item.specs.Lawful.{History, IsLawful, items_of};
ghost use Rattle.dm_journal.specs.AtRest.{journal_name};
ghost use Rattle.dm_kept.specs.Files.{Covers, EachItem, Facts, IfGood, IsSmall, Sound, by_test, no_covers};
ghost use Rattle.dm_kept.specs.Kept.{Kept, Sits, WasKept};
ghost use Rattle.dm_kept.specs.Recovery.{Through};
ghost use Rattle.dm_kept.specs.Spelled.{AllEntries, Records};

/// What is kept of the files of all items is sound in each image, whatever a test of what is said.
pub fn kept_is_sound()
    ensures { (test : List ℕ → Key → ℕ → ℕ → Bool) (history : History) (disk : DiskState) (image : Image) → Facts (by_test test) no_covers (items_of history) disk.files
        → MayLeave disk image → Sound (by_test test) (items_of history) image }
{}

/// Where a history sits, each crash leaves exactly what it leaves.
pub fn sits_exactly()
    ensures { (good : Bool) (test : List ℕ → Key → ℕ → ℕ → Bool) (history : History) (gate : ℕ) (covers : Covers) (disk : DiskState) → Sits good (by_test test) history gate covers disk
        → Kept good (by_test test) (Through history []) disk }
{}

/// A good disk that reads as the journal of a history keeps the files of just its items.
pub fn found_is_kept()
    ensures { (good : Bool) (test : List ℕ → Key → ℕ → ℕ → Bool) (history : History) (disk : DiskState) → IsSoundDisk disk → WasKept good (by_test test) disk
        → Records (contents_of disk.state journal_name) history → IfGood good (Facts (by_test test) no_covers (items_of history) disk.files) }
{}

/// A disk on which no journal ever stood is kept, with no items.
pub fn an_empty_disk_is_kept()
    ensures { (good : Bool) (test : List ℕ → Key → ℕ → ℕ → Bool) (disk : DiskState) → IsAbsent journal_name disk.state → Kept good (by_test test) (Through [] []) disk }
{}

/// The ids and epochs of a journal's items fit 32 bits, so that no two items have one part.
pub fn items_are_small()
    ensures { (history : History) → IsLawful history → AllEntries history → EachItem IsSmall (items_of history) }
{}
