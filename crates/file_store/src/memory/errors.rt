// Why files in memory can't be made or listed.
ghost use Rattle.std.specs.Prelude.{◌≡◌};

use places::Place;
use std::alloc::{AllocError, AllocFailed};

/// Why no files come of a list, or no list of files. Clash names the place of the list that can't stand beside an
/// earlier one.
#[derive(Debug, Drop)]
pub enum MemErr {
    Clash { place: Place },
    NoMemory,
}

impl From<AllocError> for MemErr {
    ghost use Rattle.file_store.specs.declared.memory.errors.MemErr.TheVariants.{NoMemory};

    ghost from_gives = { λ _ e. e ≡ NoMemory };

    fn from(_: AllocError) -> Self {
        MemErr::NoMemory
    }
}
