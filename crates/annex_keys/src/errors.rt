// Why a text has no key.
ghost use Rattle.std.specs.Prelude.{◌≡◌};
ghost use Rattle.annex_keys.specs.declared.errors.KeyErr.TheVariants.{NoMemory};

use std::alloc::{AllocError, AllocFailed};
use thiserror::Error;

/// `BadKey` names the byte, from 0, at which no key's text continues; it is the length of the text
/// where the text ends too early.
#[derive(Clone, Copy, Debug, PartialEq, Eq, Error)]
pub enum KeyErr {
    #[error("not a key, at byte {at}")]
    BadKey { at: u64 },
    #[error("no memory")]
    NoMemory,
}

impl From<AllocError> for KeyErr {
    ghost from_gives = { λ _ e. e ≡ NoMemory };

    fn from(_: AllocError) -> Self {
        KeyErr::NoMemory
    }
}

impl<T: Drop> From<AllocFailed<T>> for KeyErr {
    ghost from_gives = { λ _ e. e ≡ NoMemory };

    fn from(_: AllocFailed<T>) -> Self {
        KeyErr::NoMemory
    }
}
