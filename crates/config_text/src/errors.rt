// What can go wrong with a configuration.
ghost use Rattle.std.specs.Prelude.{◌≡◌};
ghost use Rattle.config_text.specs.declared.errors.ConfErr.TheVariants.{NoMemory};

use std::alloc::AllocError;
use thiserror::Error;

/// Why a configuration is neither read nor printed. Lines count from 1.
#[derive(Clone, Copy, Debug, PartialEq, Eq, Error)]
pub enum ConfErr {
    #[error("line {line} of the configuration cannot be read")]
    BadLine { line: u64 },
    #[error("no memory")]
    NoMemory,
}

impl From<AllocError> for ConfErr {
    ghost from_gives = { λ _ e. e ≡ NoMemory };

    fn from(_: AllocError) -> Self {
        ConfErr::NoMemory
    }
}
