// Why a log is not read, or a claim not noted.
ghost use Rattle.std.specs.Prelude.{◌≡◌};
ghost use Rattle.location_log.specs.declared.errors.LogErr.TheVariants.{NoMemory};

use std::alloc::{AllocError, AllocFailed};
use thiserror::Error;

/// `BadLog` names the first line that is neither empty nor in form, from 1; `TimeFull` says that no
/// second is later than that of the line that counts.
#[derive(Clone, Copy, Debug, PartialEq, Eq, Error)]
pub enum LogErr {
    #[error("not a location log, at line {line}")]
    BadLog { line: u64 },
    #[error("no later second")]
    TimeFull,
    #[error("no memory")]
    NoMemory,
}

impl From<AllocError> for LogErr {
    ghost from_gives = { λ _ e. e ≡ NoMemory };

    fn from(_: AllocError) -> Self {
        LogErr::NoMemory
    }
}

impl<T: Drop> From<AllocFailed<T>> for LogErr {
    ghost from_gives = { λ _ e. e ≡ NoMemory };

    fn from(_: AllocFailed<T>) -> Self {
        LogErr::NoMemory
    }
}
