// Reading the text of a key, from front to end.
ghost use Rattle.std.specs.Prelude.{◌≡◌, ◌++◌, codes, MatchResult};
ghost use Rattle.annex_keys.specs.Keys.{IsKeyText};
ghost use Rattle.annex_keys.specs.Pieces.{IsDashed, IsDigestText, IsSizeText, key_front};
ghost use Rattle.annex_keys.specs.Reads.{KeyReadEnds};
ghost use Rattle.annex_keys.specs.Steps.{IsDigestOf, IsDashedOf, IsSizeOf, IsPlainKey, StopsWith};

use crate::copies::copied;
use crate::errors::KeyErr;
use crate::fronts::{after_front, check_ext, digits_at_front, read_size};
use crate::keys::{Backend, Key};
use hex::FromHex;
use std::alloc::Global;

// The digest at the front, and the extension that follows.
fn read_digest(text: &[u8]) -> Result<([u8; 32], &[u8]), usize>
    ensures { MatchResult result (λ read. IsDigestOf text.now read.0 read.1.now)
        (StopsWith IsDigestText text.now) }
{
    let digits = digits_at_front(text);
    if digits < 64 {
        return Err(text.len() - digits);
    }
    let (front, ext) = text.split_at(64);
    check_ext(ext)?;
    let digest = <[u8; 32] as FromHex>::from_hex(front).unwrap();
    Ok((digest, ext))
}

// The same behind two dashes.
fn read_dashed(text: &[u8]) -> Result<([u8; 32], &[u8]), usize>
    ensures { MatchResult result (λ read. IsDashedOf text.now read.0 read.1.now)
        (StopsWith IsDashed text.now) }
{
    let rest = after_front(text, b"--")?;
    read_digest(rest)
}

// The parts of a key's text behind its first dash.
#[derive(Drop)]
struct Parts<'a> {
    size: u64,
    digest: [u8; 32],
    ext: &'a [u8],
}

// The size at the front, and the digest and the extension that follow.
fn read_sized(text: &[u8]) -> Result<Parts, usize>
    ensures { MatchResult result (λ read. IsSizeOf text.now read.size read.digest read.ext.now)
        (StopsWith IsSizeText text.now) }
{
    let (size, rest) = read_size(text)?;
    let (digest, ext) = read_dashed(rest)?;
    Ok(Parts { size, digest, ext })
}

fn read_parts(text: &[u8]) -> Result<Parts, usize>
    ensures { MatchResult result (λ read. IsPlainKey text.now read.size read.digest read.ext.now)
        (StopsWith IsKeyText text.now) }
{
    let rest = after_front(text, b"SHA256E-s")?;
    read_sized(rest)
}

/// The key whose text these bytes are.
pub(crate) fn key_in(alloc: Global, text: &[u8]) -> Result<Key, KeyErr>
    ensures { KeyReadEnds text.now result }
{
    match read_parts(text) {
        Ok(parts) => {
            let ext = copied(alloc, parts.ext)?;
            let digest = parts.digest;
            Ok(Key::new(Backend::Sha256E, parts.size, digest, ext))
        }
        Err(left) => Err(KeyErr::BadKey {
            at: (text.len() - left) as u64,
        }),
    }
}

/// The key with this text.
pub fn from_text(alloc: Global, text: &str) -> Result<Key, KeyErr>
    ensures { KeyReadEnds text.now result }
{
    key_in(alloc, text.as_bytes())
}
