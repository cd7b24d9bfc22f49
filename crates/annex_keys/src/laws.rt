// What printing and reading come to together.
ghost use Rattle.std.specs.Prelude.{◌≡◌, MatchResult, Some};
ghost use Rattle.annex_keys.specs.Laws.{HaveOneReading};
ghost use Rattle.annex_keys.specs.Reads.{RefusesKey};
ghost use Rattle.annex_keys.specs.declared.errors.KeyErr.TheVariants.{NoMemory};

use crate::errors::KeyErr;
use crate::keys::Key;
use crate::pointers::{pointer_text, read_pointer};
use crate::printing::to_text;
use crate::reading::from_text;
use places::Text;
use std::alloc::Global;

/// Each text is of one key at most, and stops at one place where it is of none; and bytes point to
/// one key at most.
pub fn have_one_reading()
    ensures { HaveOneReading }
{}

/// A key, read from its own text: the same key.
pub fn reread_key(alloc: Global, key: &Key) -> Result<Key, KeyErr>
    ensures { MatchResult result (λ read. read ≡ key.now) (λ e. e ≡ NoMemory) }
{
    let text = to_text(alloc, key)?;
    from_text(alloc, text.as_str())
}

/// A key's text, printed again: the same text.
pub fn rewrite_key(alloc: Global, text: &str) -> Result<Text, KeyErr>
    ensures { MatchResult result (λ written. written ≡ text.now) (RefusesKey text.now) }
{
    let key = from_text(alloc, text)?;
    to_text(alloc, &key)
}

/// A key, read from its own pointer: the same key.
pub fn reread_pointer(alloc: Global, key: &Key) -> Result<Option<Key>, KeyErr>
    ensures { MatchResult result (λ read. read ≡ Some key.now) (λ e. e ≡ NoMemory) }
{
    let text = pointer_text(alloc, key)?;
    read_pointer(alloc, text.as_str().as_bytes())
}
