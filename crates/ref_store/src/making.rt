// Branches that are made.
ghost use Rattle.std.specs.Prelude.{◌≡◌, IsTrue};
ghost use Rattle.repository.specs.All.{is_repo, is_branch as is_branch_name};
ghost use Rattle.acts.specs.All.{ActsQuietly, NoFault, Reads};
ghost use Rattle.ref_store.specs.Branches.{MayMakeBranch, makes_branch};
ghost use Rattle.ref_store.specs.Revisions.{has_branch};

use crate::forms::id_text;
use crate::layout::branch_place;
use crate::names::is_branch;
use faults::{Fault, Trouble};
use file_store::{Files, Kind, Place, replace};
use git_objects::Id;
use places::Text;
use repository::{REPO_LIMIT, repo_too_large, tmp_place};
use std::alloc::Global;

/// Whether a branch of that name stands. Where its place would be too long for one, none does.
pub(crate) fn has_branch<F: Files>(
    alloc: Global,
    files: &mut F,
    repo: &Place,
    name: &Text,
) -> Result<bool, Trouble>
    requires { IsTrue (is_branch_name name.now) }
    ensures { Reads (λ fault. NoFault fault) F.tells (λ g there. there ≡ has_branch repo.now name.now g) (λ g fault. ⊥)
        (F.drive files.old) (F.drive files.new) result }
{
    let place = match branch_place(alloc, repo, name) {
        Ok(place) => place,
        Err(Trouble::Refused(_)) => return Ok(false),
        Err(trouble) => return Err(trouble),
    };
    let Kind::File = files.kind(alloc, &place)? else {
        return Ok(false);
    };
    Ok(true)
}

/// Makes a branch at a commit.
///
/// Refuses BadBranch, then BranchThere, then TooLarge of the repository's place, then Blocked.
pub fn make_branch<F: Files>(
    alloc: Global,
    files: &mut F,
    repo: &Place,
    name: &str,
    id: &Id,
) -> Result<(), Trouble>
    ensures { IsTrue (is_repo repo.now) → ActsQuietly (λ fault. MayMakeBranch F.tells repo.now name.now fault) F.tells
        (makes_branch repo.now name.now id.now.0) (F.drive files.old) (F.drive files.new) result }
{
    let text = id_text(alloc, id)?;
    let name = Text::new(String::from_str(alloc, name)?);
    if !is_branch(name.as_str().as_bytes()) {
        return Err(Trouble::Refused(Fault::BadBranch { name }));
    }
    if has_branch(alloc, files, repo, &name)? {
        return Err(Trouble::Refused(Fault::BranchThere { name }));
    }
    if REPO_LIMIT < repo.as_str().len() {
        return Err(Trouble::Refused(repo_too_large(alloc, repo)?));
    }
    let tmp = tmp_place(alloc, repo, 0)?;
    let place = branch_place(alloc, repo, &name)?;
    replace(alloc, files, &tmp, &place, text.as_slice())?;
    Ok(())
}
