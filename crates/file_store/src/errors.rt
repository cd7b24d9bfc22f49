// The errors of the disk and the sinks.
ghost use Rattle.std.specs.Prelude.{◌≡◌};
ghost use Rattle.file_store.specs.Troubles.{trouble_of};

use faults::{Fault, Trouble};
use places::Place;
use std::alloc::{AllocError, AllocFailed};

/// Why a call of files gave no answer. Blocked names the place that it was to write.
#[derive(Debug, Drop)]
pub enum FileErr {
    Failed,
    Blocked { place: Place },
    NoMemory,
}

/// Why a sink took nothing.
#[derive(Clone, Copy, Debug, PartialEq, Eq)]
pub enum SinkErr {
    Failed,
    NoMemory,
}

impl From<AllocError> for FileErr {
    ghost use Rattle.file_store.specs.declared.errors.FileErr.TheVariants.{NoMemory as FileNoMemory};

    ghost from_gives = { λ _ e. e ≡ FileNoMemory };

    fn from(_: AllocError) -> Self {
        FileErr::NoMemory
    }
}

impl<T: Drop> From<AllocFailed<T>> for FileErr {
    ghost use Rattle.file_store.specs.declared.errors.FileErr.TheVariants.{NoMemory as FileNoMemory};

    ghost from_gives = { λ _ e. e ≡ FileNoMemory };

    fn from(_: AllocFailed<T>) -> Self {
        FileErr::NoMemory
    }
}

impl From<FileErr> for Trouble {
    ghost from_gives = { λ e t. t ≡ trouble_of e };

    fn from(e: FileErr) -> Self {
        match e {
            FileErr::Failed => Trouble::Device,
            FileErr::Blocked { place } => Trouble::Refused(Fault::Blocked { place }),
            FileErr::NoMemory => Trouble::NoMemory,
        }
    }
}
