use dm_types::NoMemory;
use std::alloc::AllocError;
use std::io;

/// Why a folder could not be made or listed.
#[derive(Debug, Drop)]
pub(crate) enum FolderFault {
    System(io::Error),
    NoMemory,
}

impl From<io::Error> for FolderFault {
    ghost use Rattle.std.specs.Prelude.{◌≡◌};
    ghost use Rattle.dm_disk_real.specs.declared.fault.FolderFault.TheVariants.{System};

    ghost from_gives = { λ error fault. fault ≡ System error };

    fn from(error: io::Error) -> FolderFault {
        FolderFault::System(error)
    }
}

impl From<NoMemory> for FolderFault {
    ghost use Rattle.std.specs.Prelude.{◌≡◌};
    ghost use Rattle.dm_disk_real.specs.declared.fault.FolderFault.TheVariants.{NoMemory as Wanting};

    ghost from_gives = { λ _ fault. fault ≡ Wanting };

    fn from(_: NoMemory) -> FolderFault {
        FolderFault::NoMemory
    }
}

impl From<AllocError> for FolderFault {
    ghost use Rattle.std.specs.Prelude.{◌≡◌};
    ghost use Rattle.dm_disk_real.specs.declared.fault.FolderFault.TheVariants.{NoMemory as Wanting};

    ghost from_gives = { λ _ fault. fault ≡ Wanting };

    fn from(_: AllocError) -> FolderFault {
        FolderFault::NoMemory
    }
}
