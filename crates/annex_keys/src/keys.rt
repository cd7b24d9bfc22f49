// A key: size, digest and extension of a content.
ghost use Rattle.std.specs.Prelude.{◌≡◌, IfOk, IsUtf8};
ghost use Rattle.annex_keys.specs.Extensions.{IsExt};
ghost use Rattle.annex_keys.specs.Keys.{IsDigest};

use places::Text;
use std::alloc::{AllocError, Global};
use std::marker::Model;

/// How a key is computed.
#[derive(Clone, Copy, Debug, PartialEq, Eq)]
pub enum Backend {
    Sha256E,
}

/// The key of a content. `size` counts bytes, `digest` is the SHA-256, and `ext` is an extension:
/// no, one or two groups, each a dot and one to four ASCII letters or digits.
#[derive(Debug, Drop)]
pub struct Key {
    backend: Backend,
    size: u64,
    digest: [u8; 32],
    ext: Text,
}

impl Model for Key {
    ghost use Rattle.annex_keys.specs.Extensions.{IsExt};
    ghost use Rattle.annex_keys.specs.Keys.{IsDigest};
    ghost use Rattle.annex_keys.specs.Plain.{PlainKey};

    ghost Value = { PlainKey };

    ghost view = { λ k. record {
      backend = k.backend;
      size = k.size;
      digest = k.digest;
      ext = k.ext;
    } };

    ghost invariant = { λ k. IsExt k.ext × IsDigest k.digest };
}

impl Key {
    pub(crate) fn new(backend: Backend, size: u64, digest: [u8; 32], ext: Text) -> Key
        requires { IsExt ext }
        ensures { result ≡ record { backend = backend; size = size; digest = digest; ext = ext } }
    {
        Key {
            backend,
            size,
            digest,
            ext,
        }
    }

    pub fn backend(&self) -> Backend
        ensures { result ≡ self.now.backend }
    {
        self.backend
    }

    /// The size of the content in bytes.
    pub fn size(&self) -> u64
        ensures { result ≡ self.now.size }
    {
        self.size
    }

    /// The SHA-256 of the content.
    pub fn digest(&self) -> &[u8; 32]
        ensures value { result.now ≡ self.now.digest }
        ensures stored { IsDigest self.now.digest }
    {
        &self.digest
    }

    /// The extension with its dots, which may be empty.
    pub fn ext(&self) -> &str
        ensures value { result.now ≡ self.now.ext }
        ensures utf8 { IsUtf8 self.now.ext }
        ensures extended { IsExt self.now.ext }
    {
        self.ext.as_str()
    }

    pub fn try_clone(&self, alloc: Global) -> Result<Key, AllocError>
        ensures { IfOk result (λ key. key ≡ self.now) }
    {
        let ext = String::from_str(alloc, self.ext.as_str())?;
        Ok(Key::new(self.backend, self.size, self.digest, Text::new(ext)))
    }
}
