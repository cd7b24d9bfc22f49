// The text of a key.
ghost use Rattle.std.specs.Prelude.{◌≡◌, MatchResult, string_bytes, codes, IfOk, OnOk};
ghost use Rattle.annex_keys.specs.Keys.{IsKey, IsTextOf, backend_text, key_text};
ghost use Rattle.annex_keys.specs.declared.errors.KeyErr.TheVariants.{NoMemory};

use crate::errors::KeyErr;
use crate::keys::{Backend, Key};
use places::Text;
use std::alloc::{AllocError, Global};

fn backend_text(backend: Backend) -> &'static str
    ensures { result.now ≡ backend_text backend }
{
    match backend {
        Backend::Sha256E => "SHA256E",
    }
}

#[tactic(auto, unfolding(crate::specs::Keys::key_text))]
pub(crate) fn printed(alloc: Global, key: &Key) -> Result<String, AllocError>
    ensures text { IfOk result (λ text. string_bytes text ≡ key_text key.now) }
    ensures stored { OnOk result (IsKey key.now) }
{
    let backend = backend_text(key.backend());
    let size = key.size();
    let digest = hex::encode(alloc, key.digest())?;
    let ext = key.ext();
    format!(in alloc; "{backend}-s{size}--{digest}{ext}")
}

/// The text of a key: `SHA256E-s`, the size in decimal, `--`, the digest in 64 lower-case
/// hexadecimal digits, and the extension.
pub fn to_text(alloc: Global, key: &Key) -> Result<Text, KeyErr>
    ensures { MatchResult result (IsTextOf key.now) (λ e. e ≡ NoMemory) }
{
    Ok(Text::new(printed(alloc, key)?))
}
