// Putting objects.
//
// Every place is looked at before anything is written; then what is missing goes by temporary places, all of it at the
// price of two barriers. An object's file is never written in place, so a reader sees none of it or all.
ghost use Rattle.std.specs.Prelude.{IsTrue};
ghost use Rattle.repository.specs.All.{is_repo};
ghost use Rattle.acts.specs.All.{ActsQuietly};
ghost use Rattle.object_store.specs.PutActs.{MayPut, puts_objects};

use crate::looking::missing;
use crate::objects::NewObject;
use faults::Trouble;
use file_store::{Files, Place, replace_all};
use repository::{OBJECT_LIMIT, REPO_LIMIT, repo_too_large};
use std::alloc::Global;

/// Puts the objects that aren't held.
///
/// Refuses Damaged and Collision before any write, then TooLarge of the repository's place, then Blocked.
pub fn put_all<F: Files>(
    alloc: Global,
    files: &mut F,
    repo: &Place,
    objects: &[NewObject],
) -> Result<(), Trouble>
    ensures { IsTrue (is_repo repo.now) → ActsQuietly (λ fault. MayPut F.tells repo.now objects.now fault) F.tells
        (puts_objects repo.now objects.now) (F.drive files.old) (F.drive files.new) result }
{
    if objects.is_empty() {
        return Ok(());
    }
    if OBJECT_LIMIT < repo.as_str().len() {
        return Err(Trouble::Refused(repo_too_large(alloc, repo)?));
    }
    let list = missing(alloc, files, repo, objects)?;
    if list.is_empty() {
        return Ok(());
    }
    if REPO_LIMIT < repo.as_str().len() {
        return Err(Trouble::Refused(repo_too_large(alloc, repo)?));
    }
    replace_all(alloc, files, list.as_slice())?;
    Ok(())
}
