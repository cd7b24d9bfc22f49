// Pointers, the texts that stand in place of a file's bytes.
ghost use Rattle.std.specs.Prelude.{◌≡◌, ◌≢◌, ◌++◌, ℕ, List, codes};
ghost use Rattle.std.specs.Prelude.{MatchOption, MatchResult, OnOk};
ghost use Rattle.annex_keys.specs.Keys.{IsKey};
ghost use Rattle.annex_keys.specs.Pointers.{IsStripped, pointer_text};
ghost use Rattle.annex_keys.specs.Reads.{PointerReadEnds};
ghost use Rattle.annex_keys.specs.declared.errors.KeyErr.TheVariants.{NoMemory};

use crate::errors::KeyErr;
use crate::keys::Key;
use crate::printing::printed;
use crate::reading::key_in;
use places::Text;
use std::alloc::Global;

/// The pointer to a key: `/annex/objects/`, the text of the key, and a newline.
pub fn pointer_text(alloc: Global, key: &Key) -> Result<Text, KeyErr>
    ensures text { MatchResult result (λ text. text ≡ pointer_text key.now) (λ e. e ≡ NoMemory) }
    ensures stored { OnOk result (IsKey key.now) }
{
    let text = printed(alloc, key)?;
    Ok(Text::new(format!(in alloc; "/annex/objects/{text}\n")?))
}

// What follows the folder of a pointer.
fn after_folder(bytes: &[u8]) -> Option<&[u8]>
    ensures { MatchOption result
        ((rest : List ℕ) → bytes.now ≢ codes "/annex/objects/" ++ rest)
        (λ line. bytes.now ≡ codes "/annex/objects/" ++ line.now) }
{
    bytes.strip_prefix(b"/annex/objects/")
}

// The line without its newline, if it has one.
fn without_newline(line: &[u8]) -> &[u8]
    ensures { IsStripped line.now result.now }
{
    line.strip_suffix(b"\n").unwrap_or(line)
}

/// The key to which the bytes point: they are a pointer's text, with or without its newline, and
/// nothing after it. Such bytes are few, at most 121, so no length is tested.
pub fn read_pointer(alloc: Global, bytes: &[u8]) -> Result<Option<Key>, KeyErr>
    ensures { PointerReadEnds bytes.now result }
{
    let Some(line) = after_folder(bytes) else {
        return Ok(None);
    };
    match key_in(alloc, without_newline(line)) {
        Ok(key) => Ok(Some(key)),
        Err(KeyErr::BadKey { .. }) => Ok(None),
        Err(KeyErr::NoMemory) => Err(KeyErr::NoMemory),
    }
}
