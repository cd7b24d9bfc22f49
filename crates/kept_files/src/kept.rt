// How a working file is kept, and the blob that git gets of it.
ghost use Rattle.std.specs.Prelude.{◌≡◌, option_copied, option_map};
ghost use Rattle.kept_files.specs.Kept.{leaf_id, new_blob};

use annex_keys::Key;
use git_objects::{Id, blob_id};
use places::Text;

/// How a working file is kept.
///
/// `Same`: the old leaf stays. `is_content` says whether the bytes are the content of its key, so that a content file
/// ought to stand; it is false where they are its pointer, and where the leaf is kept in git.
///
/// `InGit`: a blob of the bytes. `Pointer`: the bytes point to a content, and `text` is that pointer with its newline;
/// no content comes with it. `Content`: the bytes are a content to be kept under `key`, and `text` is its pointer.
#[derive(Debug, Drop)]
pub enum Kept {
    Same { is_content: bool },
    InGit,
    Pointer { text: Text },
    Content { text: Text, key: Key },
}

impl Kept {
    /// The blob that git gets of a file with these bytes. None where the old leaf stays.
    pub fn new_blob<'a>(&'a self, bytes: &'a [u8]) -> Option<&'a [u8]>
        ensures { option_copied result ≡ new_blob self.now bytes.now }
    {
        match self {
            Kept::Same { .. } => None,
            Kept::InGit => Some(bytes),
            Kept::Pointer { text } => Some(text.as_str().as_bytes()),
            Kept::Content { text, .. } => Some(text.as_str().as_bytes()),
        }
    }

    /// The id of the new leaf's blob: that of the old leaf where it stays.
    pub fn leaf_id(&self, blob: Option<Id>, bytes: &[u8]) -> Option<Id>
        ensures { option_map (λ id. id.0) result ≡ leaf_id self.now blob bytes.now }
    {
        match self.new_blob(bytes) {
            Some(body) => Some(blob_id(body)),
            None => blob,
        }
    }
}
