// The key of a content, and where the content of a key lies.
ghost use Rattle.std.specs.Prelude.{◌≡◌, ◌↔◌, ◌≤◌, IsTrue, IsAscii, MatchResult, IfOk, length};
ghost use Rattle.annex_keys.specs.Contents.{Matches, directories, hash_dir, key_of};
ghost use Rattle.annex_keys.specs.declared.errors.KeyErr.TheVariants.{NoMemory};

use crate::copies::{copied, text_of};
use crate::errors::KeyErr;
use crate::extensions::extension;
use crate::keys::{Backend, Key};
use crate::printing::printed;
use md5::{Digest as _, Md5};
use places::Text;
use sha2::{Digest as _, Sha256};
use std::alloc::{AllocError, Global};

/// The key of these bytes under a file name, which gives it its extension.
#[tactic(auto, unfolding(crate::specs::Contents::key_of))]
pub fn key_of(alloc: Global, bytes: &[u8], file_name: &str) -> Result<Key, KeyErr>
    ensures { MatchResult result (λ key. key ≡ key_of bytes.now file_name.now)
        (λ e. e ≡ NoMemory) }
{
    let ext = copied(alloc, extension(file_name.as_bytes()))?;
    let digest = Sha256::digest(bytes);
    Ok(Key::new(Backend::Sha256E, bytes.len() as u64, digest, ext))
}

/// Whether the bytes have the size and the digest of the key.
pub fn matches(key: &Key, bytes: &[u8]) -> bool
    ensures { IsTrue result ↔ Matches key.now bytes.now }
{
    key.size() == bytes.len() as u64 && *key.digest() == Sha256::digest(bytes)
}

// The first three of these digits, a slash, and the next three.
fn directories(alloc: Global, digits: &[u8]) -> Result<Text, AllocError>
    requires long { 6 ≤ length digits.now }
    requires ascii { IsAscii digits.now }
    ensures { IfOk result (λ text. text ≡ directories digits.now) }
{
    let mut text = Vec::from_slice(alloc, &digits[..3])?;
    text.push(b'/')?;
    text.extend_from_slice(&digits[3..6])?;
    Ok(text_of(text))
}

/// The directories `aaa/bbb` of a key: the first three and the next three lower-case hexadecimal
/// digits of the MD5 of its text.
#[tactic(auto, unfolding(crate::specs::Contents::hash_dir))]
pub fn hash_dir(alloc: Global, key: &Key) -> Result<Text, KeyErr>
    ensures { MatchResult result (λ text. text ≡ hash_dir key.now) (λ e. e ≡ NoMemory) }
{
    let text = printed(alloc, key)?;
    let digest = Md5::digest(text.as_str());
    let digits = hex::encode(alloc, &digest)?;
    Ok(directories(alloc, digits.as_str().as_bytes())?)
}
