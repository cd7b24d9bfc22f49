// Why an object has no text, or a text no object.
ghost use Rattle.std.specs.Prelude.{◌≡◌};
ghost use Rattle.git_objects.specs.declared.errors.ObjErr.TheVariants.{NoMemory};

use std::alloc::{AllocError, AllocFailed};
use thiserror::Error;

/// `BadTree` and `BadCommit` name the byte at which a body stops being one.
#[derive(Debug, Drop, Error)]
pub enum ObjErr {
    #[error("not a tree, at byte {at}")]
    BadTree { at: u64 },
    #[error("not a commit, at byte {at}")]
    BadCommit { at: u64 },
    #[error("no memory")]
    NoMemory,
}

impl From<AllocError> for ObjErr {
    ghost from_gives = { λ _ e. e ≡ NoMemory };

    fn from(_: AllocError) -> Self {
        ObjErr::NoMemory
    }
}

impl<T: Drop> From<AllocFailed<T>> for ObjErr {
    ghost from_gives = { λ _ e. e ≡ NoMemory };

    fn from(_: AllocFailed<T>) -> Self {
        ObjErr::NoMemory
    }
}
