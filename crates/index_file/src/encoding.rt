// Writing an index.
ghost use Rattle.std.specs.Prelude.{◌≡◌, ◌<◌, ◌++◌, ◌^◌, length, IfOk, MatchResult};
ghost use Rattle.std.specs.Prelude.{OnOk};
ghost use Rattle.index_file.specs.Entries.{entry_text, mark_of};
ghost use Rattle.index_file.specs.Index.{IsIndex, body_text};
ghost use Rattle.index_file.specs.Steps.{AreStored, IsEntryStored, IsWritten, path_text};
ghost use Rattle.index_file.specs.declared.errors.IndexErr.TheVariants.{NoMemory};

use crate::entries::{IndexEntry, number_of};
use crate::errors::IndexErr;
use crate::fields::LONGEST_SAID;
use crate::paths::padding;
use sha1::Sha1;
use std::alloc::{AllocError, Global};

// What flags say of a path's length.
fn mark_of(path: &[u8]) -> u16
    ensures { result ≡ mark_of path.now }
{
    path.len().min(LONGEST_SAID) as u16
}

// The flags, the path and its padding.
fn append_path(text: &mut Vec<u8>, path: &[u8]) -> Result<(), AllocError>
    ensures { OnOk result (text.new.items ≡ text.old.items ++ path_text path.now) }
{
    text.extend_from_slice(&mark_of(path).to_be_bytes())?;
    text.extend_from_slice(path)?;
    text.extend_from_slice(padding(path.len()))
}

impl IndexEntry {
    #[tactic(auto, unfolding(crate::specs::Entries::entry_of))]
    fn append_to(&self, text: &mut Vec<u8>) -> Result<(), AllocError>
        ensures text { OnOk result (text.new.items ≡ text.old.items ++ entry_text self.now) }
        ensures stored { OnOk result (IsEntryStored self.now) }
    {
        text.extend_from_slice(&[0; 24])?;
        text.extend_from_slice(&number_of(self.mode).to_be_bytes())?;
        text.extend_from_slice(&[0; 12])?;
        text.extend_from_slice(&self.id.0)?;
        append_path(text, self.path.as_str().as_bytes())
    }
}

// The index without its SHA-1.
#[tactic(auto, unfolding(crate::specs::Index::body_text))]
fn encode_body(alloc: Global, list: &[IndexEntry]) -> Result<Vec<u8>, AllocError>
    requires { length list.now < 2 ^ 32 }
    ensures text { IfOk result (λ text. text.items ≡ body_text list.now) }
    ensures stored { OnOk result (AreStored list.now) }
{
    let mut text = Vec::from_slice(alloc, b"DIRC\0\0\0\x02")?;
    text.extend_from_slice(&(list.len() as u32).to_be_bytes())?;
    for entry in list {
        entry.append_to(&mut text)?;
    }
    Ok(text)
}

/// The index of a list whose paths ascend in byte order and have no NUL, in which nothing is a
/// directory, and which has at most 4,294,967,295 entries.
pub fn encode(alloc: Global, list: &[IndexEntry]) -> Result<Vec<u8>, IndexErr>
    requires { IsIndex list.now }
    ensures { MatchResult result (λ text. IsWritten list.now text.items) (λ e. e ≡ NoMemory) }
{
    let mut text = encode_body(alloc, list)?;
    let sum = Sha1::digest(text.as_slice());
    text.extend_from_slice(&sum)?;
    Ok(text)
}
