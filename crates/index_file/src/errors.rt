// Why there is no index, or no text of one.
ghost use Rattle.std.specs.Prelude.{◌≡◌};
ghost use Rattle.index_file.specs.declared.errors.IndexErr.TheVariants.{NoMemory};
ghost use Rattle.index_file.specs.declared.errors.Stop.TheVariants.{Left, NoMemory as MemoryStop};

use std::alloc::{AllocError, AllocFailed};
use thiserror::Error;

/// `BadIndex` names the byte, from 0, at which the first thing stands that isn't as in an index.
#[derive(Clone, Copy, Debug, PartialEq, Eq, Error)]
pub enum IndexErr {
    #[error("not an index, at byte {at}")]
    BadIndex { at: u64 },
    #[error("no memory")]
    NoMemory,
}

impl From<AllocError> for IndexErr {
    ghost from_gives = { λ _ e. e ≡ NoMemory };

    fn from(_: AllocError) -> Self {
        IndexErr::NoMemory
    }
}

impl<T: Drop> From<AllocFailed<T>> for IndexErr {
    ghost from_gives = { λ _ e. e ≡ NoMemory };

    fn from(_: AllocFailed<T>) -> Self {
        IndexErr::NoMemory
    }
}

// Why reading stops: at a place, by how many bytes are left there, or for want of memory.
#[derive(Drop)]
pub(crate) enum Stop {
    Left(usize),
    NoMemory,
}

impl From<usize> for Stop {
    ghost from_gives = { λ left stop. stop ≡ Left left };

    fn from(left: usize) -> Self {
        Stop::Left(left)
    }
}

impl From<AllocError> for Stop {
    ghost from_gives = { λ _ stop. stop ≡ MemoryStop };

    fn from(_: AllocError) -> Self {
        Stop::NoMemory
    }
}

impl<T: Drop> From<AllocFailed<T>> for Stop {
    ghost from_gives = { λ _ stop. stop ≡ MemoryStop };

    fn from(_: AllocFailed<T>) -> Self {
        Stop::NoMemory
    }
}
