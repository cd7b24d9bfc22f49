// Keeping many contents.
//
// The contents first: a crash between leaves claims too few, never one too many. All that may refuse but a source
// that has changed and a file in the way is asked before anything is written.
ghost use Rattle.std.specs.Prelude.{IsTrue};
ghost use Rattle.repository.specs.All.{is_repo};
ghost use Rattle.annex_store.specs.KeepingAll.{KeepAllEnds};
ghost use Rattle.annex_store.specs.Members.{AreOutside};

use crate::members::{NewContent, firsts};
use crate::noting::{notes, set_notes};
use crate::storing::{store, unkept};
use faults::Trouble;
use file_store::{Files, Place};
use repository::{REPO_LIMIT, repo_too_large};
use std::alloc::Global;
use uuid::Uuid;

/// Keeps many contents, each key once: the files of those that don't stand are stored in one round, each from its
/// source, and then the logs say that the repository with this uuid has them, where they don't say so, in one round.
/// No source may be a place of an unfinished write of the repository.
///
/// Refuses as `log_of`, then TimeFull, of one key after the other; then TooLarge of the repository's place, where
/// something is to be written; all before any write. Then Dirty of the first content whose source doesn't have it any
/// more, and Blocked.
pub fn keep_all<F: Files>(
    alloc: Global,
    files: &mut F,
    repo: &Place,
    uuid: &Uuid,
    list: &[NewContent],
    moment: u64,
) -> Result<(), Trouble>
    ensures { IsTrue (is_repo repo.now) → AreOutside repo.now list.now → KeepAllEnds F.tells repo.now uuid.now
        list.now moment (F.drive files.old) (F.drive files.new) result }
{
    let list = firsts(alloc, list)?;
    let notes = notes(alloc, files, repo, uuid, list.as_slice(), moment)?;
    let list = unkept(alloc, files, repo, list.as_slice())?;
    if list.is_empty() && notes.is_empty() {
        return Ok(());
    }
    if REPO_LIMIT < repo.as_str().len() {
        return Err(Trouble::Refused(repo_too_large(alloc, repo)?));
    }
    store(alloc, files, repo, list.as_slice())?;
    set_notes(alloc, files, repo, notes.as_slice())
}
