// Setting HEAD and the tip.
//
// One file is put, by way of a temporary place: a crash leaves the old tip or the new one. The branch's file isn't
// read, so a tip can be set where it is damaged.
ghost use Rattle.std.specs.Prelude.{IsTrue};
ghost use Rattle.repository.specs.All.{is_repo};
ghost use Rattle.acts.specs.All.{ActsQuietly};
ghost use Rattle.ref_store.specs.Forms.{branch_of, IsNamed};
ghost use Rattle.ref_store.specs.Setting.{MaySetTip, MaySetHead, sets_tip, sets_head};

use crate::forms::{head_text, id_text};
use crate::heads::Head;
use crate::layout::{short_head_place, tip_place};
use crate::reading::read_head;
use faults::Trouble;
use file_store::{Files, Place, replace};
use git_objects::Id;
use repository::{REPO_LIMIT, repo_too_large, tmp_place};
use std::alloc::Global;

/// Sets the commit to which HEAD leads: of its branch, or of HEAD where it is detached.
///
/// Refuses as `read_head`, then TooLarge of the repository's place, then Blocked.
pub fn set_tip<F: Files>(alloc: Global, files: &mut F, repo: &Place, id: &Id) -> Result<(), Trouble>
    ensures { IsTrue (is_repo repo.now) → ActsQuietly (λ fault. MaySetTip F.tells repo.now fault) F.tells
        (sets_tip repo.now id.now.0) (F.drive files.old) (F.drive files.new) result }
{
    let text = id_text(alloc, id)?;
    let head = read_head(alloc, files, repo)?;
    if REPO_LIMIT < repo.as_str().len() {
        return Err(Trouble::Refused(repo_too_large(alloc, repo)?));
    }
    let tmp = tmp_place(alloc, repo, 0)?;
    let place = tip_place(alloc, repo, &head)?;
    replace(alloc, files, &tmp, &place, text.as_slice())?;
    Ok(())
}

/// Sets HEAD.
///
/// Refuses TooLarge of the repository's place, then Blocked.
pub fn set_head<F: Files>(
    alloc: Global,
    files: &mut F,
    repo: &Place,
    head: &Head,
) -> Result<(), Trouble>
    requires { IsNamed (branch_of head.now) }
    ensures { IsTrue (is_repo repo.now) → ActsQuietly (λ fault. MaySetHead F.tells repo.now fault) F.tells
        (sets_head repo.now head.now) (F.drive files.old) (F.drive files.new) result }
{
    if REPO_LIMIT < repo.as_str().len() {
        return Err(Trouble::Refused(repo_too_large(alloc, repo)?));
    }
    let text = head_text(alloc, head)?;
    let tmp = tmp_place(alloc, repo, 0)?;
    let place = short_head_place(alloc, repo)?;
    replace(alloc, files, &tmp, &place, text.as_slice())?;
    Ok(())
}
