// The contents that a save keeps under their keys.
ghost use Rattle.std.specs.Prelude.{◌≡◌, ◌++◌, IfOk, IfErr, MatchOption, option_copied};
ghost use Rattle.places.specs.All.{is_text, joined, names_of};
ghost use Rattle.recursive_save.specs.Contents.{ContentFails, ContentsFail, content_key, contents, new_content};

use crate::blobs::{dirty, place_of};
use crate::first::text;
use annex_keys::Key;
use annex_store::NewContent;
use faults::Trouble;
use file_store::Place;
use kept_files::Kept;
use std::alloc::Global;
use tree_status::{Keeping, WorkingFile};

// The key of the content that is to be kept of a working file, if any.
fn content_key<'a>(by: &'a Keeping, file: &'a WorkingFile) -> Option<&'a Key>
    ensures { option_copied result ≡ content_key by.now file.now }
{
    match &file.kept {
        Kept::Content { key, .. } => Some(key),
        Kept::Same { .. } => {
            if file.lacks {
                return by.key(file.path.as_str());
            }
            None
        }
        Kept::InGit | Kept::Pointer { .. } => None,
    }
}

// The content under this key, whose source is a working file.
fn new_content(
    alloc: Global,
    root: &Place,
    file: &WorkingFile,
    key: &Key,
) -> Result<NewContent, Trouble>
    ensures content { IfOk result (λ content. content ≡ new_content root.now file.now key.now) }
    ensures fails { IfErr result (ContentFails root.now file.now) }
{
    let Some(source) = place_of(alloc, root, file.path.as_str())? else {
        return Err(Trouble::Refused(dirty(alloc, file)?));
    };
    let key = key.try_clone(alloc)?;
    let path = text(alloc, file.path.as_str())?;
    Ok(NewContent { key, path, source })
}

/// The contents that are to be kept of working files: those that are new, and those that the repository lacks.
///
/// Refuses Dirty of a file whose path has no place, which comes only where the files don't tell what they hold.
pub(crate) fn contents(
    alloc: Global,
    root: &Place,
    by: &Keeping,
    files: &[WorkingFile],
) -> Result<Vec<NewContent>, Trouble>
    ensures contents { IfOk result (λ list. list.items ≡ contents root.now by.now files.now) }
    ensures fails { IfErr result (ContentsFail root.now files.now) }
{
    let mut list = Vec::new(alloc);
    for file in files {
        if let Some(key) = content_key(by, file) {
            list.push(new_content(alloc, root, file, key)?)?;
        }
    }
    Ok(list)
}
