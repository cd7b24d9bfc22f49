// What can go wrong with the words of a call.
ghost use Rattle.std.specs.Prelude.{◌≡◌};
ghost use Rattle.dl_words.specs.declared.errors.WordsErr.TheVariants.{NoMemory};

use std::alloc::AllocError;
use thiserror::Error;

/// Why words are not read. `at` is the index of the first word at which no reading continues, from 0, or the number of
/// words where something lacks at the end.
#[derive(Clone, Copy, Debug, PartialEq, Eq, Error)]
pub enum WordsErr {
    #[error("usage: word {at}")]
    Usage { at: u64 },
    #[error("no memory")]
    NoMemory,
}

impl From<AllocError> for WordsErr {
    ghost from_gives = { λ _ e. e ≡ NoMemory };

    fn from(_: AllocError) -> Self {
        WordsErr::NoMemory
    }
}
