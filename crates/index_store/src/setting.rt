// Setting the index of a dataset.
//
// One file is put, by way of a temporary place: a crash leaves the old index or the new one.
ghost use Rattle.acts.specs.All.{ActsQuietly};
ghost use Rattle.index_store.specs.Indexes.{MaySetIndex, keeps_index, sets_index};

use crate::texts::snapshot_text;
use acts::put_file;
use faults::Trouble;
use file_store::{Files, Place};
use repository::{REPO_LIMIT, index_place, repo_place, repo_place_text, tmp_place, too_large};
use snapshot::Snapshot;
use std::alloc::Global;

// Writes the index of a snapshot.
fn set_index<F: Files>(
    alloc: Global,
    files: &mut F,
    root: &Place,
    snapshot: &Snapshot,
) -> Result<(), Trouble>
    ensures { ActsQuietly (λ fault. MaySetIndex F.tells root.now fault) F.tells
        (sets_index root.now snapshot.now) (F.drive files.old) (F.drive files.new) result }
{
    let repo = repo_place_text(alloc, root)?;
    if REPO_LIMIT < repo.len() {
        return Err(Trouble::Refused(too_large(repo)));
    }
    let text = snapshot_text(alloc, snapshot)?;
    let repo = repo_place(alloc, root)?;
    let tmp = tmp_place(alloc, &repo, 0)?;
    let place = index_place(alloc, root)?;
    put_file(alloc, files, &tmp, &place, text.as_slice())
}

/// Makes the index of a dataset that of a snapshot: a file of one entry for each path, or nothing where `has` says that it
/// is that already.
///
/// Refuses TooLarge of the repository's place, then Blocked.
pub fn keep_index<F: Files>(
    alloc: Global,
    files: &mut F,
    root: &Place,
    snapshot: &Snapshot,
    has: bool,
) -> Result<(), Trouble>
    ensures { ActsQuietly (λ fault. MaySetIndex F.tells root.now fault) F.tells
        (keeps_index has root.now snapshot.now) (F.drive files.old) (F.drive files.new) result }
{
    if has {
        return Ok(());
    }
    set_index(alloc, files, root, snapshot)
}
