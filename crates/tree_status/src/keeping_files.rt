// How the working files are kept: each is read once, and one is in memory at a time.
//
// The walk has asked for the size of each. A file that is gone by now, or has grown past its limit, is refused as one
// that changes under the reading.
ghost use Rattle.std.specs.Prelude.{◌≡◌, IfOk, option_copied};
ghost use Rattle.acts.specs.All.{Reads};
ghost use Rattle.repository.specs.All.{repo_of};
ghost use Rattle.tree_status.specs.Changes.{paths_of};
ghost use Rattle.tree_status.specs.KeepingFiles.{BytesRead, FileKeeps, FilesKeep, LackReads, has_content};

use crate::found::WorkingFile;
use crate::keeping::Keeping;
use crate::visiting::{gone, place_below, text};
use annex_keys::Key;
use annex_store::has;
use faults::Trouble;
use file_store::{Files, Place};
use kept_files::Kept;
use places::Text;
use std::alloc::Global;

// The bytes of a file that the walk has found. Its size is asked first, so that no more is read than it may have.
fn file_bytes<F: Files>(
    alloc: Global,
    files: &mut F,
    root: &Place,
    by: &Keeping,
    path: &str,
) -> Result<Vec<u8>, Trouble>
    ensures { BytesRead F.tells root.now by.now path.now (F.drive files.old) (F.drive files.new) result }
{
    let Some(place) = place_below(alloc, root, path)? else {
        return Err(Trouble::Refused(gone(alloc, path)?));
    };
    let Some(size) = files.size(alloc, &place)? else {
        return Err(Trouble::Refused(gone(alloc, path)?));
    };
    if size > by.limit(path) {
        return Err(Trouble::Refused(gone(alloc, path)?));
    }
    match files.read(alloc, &place)? {
        Some(bytes) => Ok(bytes),
        None => Err(Trouble::Refused(gone(alloc, path)?)),
    }
}

// Whether a content file of the key stands. None does where its place would be longer than places are.
fn has_content<F: Files>(
    alloc: Global,
    files: &mut F,
    repo: &Place,
    key: &Key,
) -> Result<bool, Trouble>
    ensures { Reads (λ _. ⊥) F.tells (λ g there. there ≡ has_content repo.now g key.now) (λ _ _. ⊥)
        (F.drive files.old) (F.drive files.new) result }
{
    match has(alloc, files, repo, key) {
        Err(Trouble::Refused(_)) => Ok(false),
        found => found,
    }
}

// Whether the content of the old leaf's key is lacked, for a file that is kept so.
fn lacks<F: Files>(
    alloc: Global,
    files: &mut F,
    repo: &Place,
    key: Option<&Key>,
    kept: &Kept,
) -> Result<bool, Trouble>
    ensures { LackReads F.tells repo.now (option_copied key.entry) kept.now (F.drive files.old) (F.drive files.new) result }
{
    let Some(key) = key else {
        return Ok(false);
    };
    let Kept::Same { is_content: true } = kept else {
        return Ok(false);
    };
    Ok(!has_content(alloc, files, repo, key)?)
}

// Reads a file, and says how it is kept.
fn keep_file<F: Files>(
    alloc: Global,
    files: &mut F,
    root: &Place,
    repo: &Place,
    by: &Keeping,
    path: &str,
) -> Result<WorkingFile, Trouble>
    requires repo { repo.now ≡ repo_of root.now }
    ensures reads { FileKeeps F.tells root.now by.now path.now (F.drive files.old) (F.drive files.new) result }
    ensures path { IfOk result (λ file. file.path ≡ path.now) }
{
    let bytes = file_bytes(alloc, files, root, by, path)?;
    let kept = by.kept(alloc, path, bytes.as_slice())?;
    let lacks = lacks(alloc, files, repo, by.key(path), &kept)?;
    let id = by.leaf_id(path, bytes.as_slice(), &kept);
    let path = text(alloc, path)?;
    Ok(WorkingFile {
        path,
        id,
        kept,
        lacks,
    })
}

/// How the files at these paths are kept, in order. `paths` are those that the walk has found.
///
/// Refuses Dirty of a file that is gone, or has more bytes than it may have, since the walk.
pub fn keep_files<F: Files>(
    alloc: Global,
    files: &mut F,
    root: &Place,
    repo: &Place,
    by: &Keeping,
    paths: &[Text],
) -> Result<Vec<WorkingFile>, Trouble>
    requires repo { repo.now ≡ repo_of root.now }
    ensures reads { FilesKeep F.tells root.now by.now paths.now (F.drive files.old) (F.drive files.new) result }
    ensures paths { IfOk result (λ list. paths_of list.items ≡ paths.now) }
{
    let mut list = Vec::new(alloc);
    for path in paths {
        let file = keep_file(alloc, files, root, repo, by, path.as_str())?;
        list.push(file)?;
    }
    Ok(list)
}
