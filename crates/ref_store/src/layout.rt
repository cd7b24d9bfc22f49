// Where HEAD and branches stand.
ghost use Rattle.std.specs.Prelude.{◌≡◌, ◌≤◌, ◌++◌, IsTrue, IfOk, codes, length, string_bytes};
ghost use Rattle.places.specs.All.{is_path, pieces, text_of};
ghost use Rattle.repository.specs.All.{is_branch, repo_head, branch_place, tip_place, repo_limit};
ghost use Rattle.ref_store.specs.Forms.{branch_of, IsNamed};
ghost use Rattle.ref_store.specs.Layout.{IsPlaced, branch_path};

use crate::heads::Head;
use faults::Trouble;
use places::{Place, Text};
use repository::{PLACE_LIMIT, too_large};
use std::alloc::{AllocError, Global};

/// The place at a path, refused where it is longer than places are.
pub(crate) fn place_at(alloc: Global, repo: &Place, path: &str) -> Result<Place, Trouble>
    requires { IsTrue (is_path path.now) }
    ensures { IsPlaced (repo.now ++ pieces path.now) result }
{
    let text = repo.joined(alloc, path)?;
    if PLACE_LIMIT < text.len() {
        return Err(Trouble::Refused(too_large(text)));
    }
    Ok(repo.below(alloc, path)?)
}

/// Where HEAD stands.
#[tactic(auto, unfolding(places::specs::Names::is_path, places::specs::Names::is_name))]
pub(crate) fn head_place(alloc: Global, repo: &Place) -> Result<Place, Trouble>
    ensures { IsPlaced (repo_head repo.now) result }
{
    place_at(alloc, repo, "HEAD")
}

// `refs/heads/NAME`
fn branch_path(alloc: Global, name: &Text) -> Result<String, AllocError>
    ensures { IfOk result (λ path. string_bytes path ≡ branch_path name.now) }
{
    let mut path = String::from_str(alloc, "refs/heads/")?;
    path.push_str(name.as_str())?;
    Ok(path)
}

/// Where a branch stands.
pub(crate) fn branch_place(alloc: Global, repo: &Place, name: &Text) -> Result<Place, Trouble>
    requires { IsTrue (is_branch name.now) }
    ensures { IsPlaced (branch_place repo.now name.now) result }
{
    let path = branch_path(alloc, name)?;
    place_at(alloc, repo, path.as_str())
}

/// Where HEAD stands in a repository in which something may be written.
#[tactic(auto, unfolding(places::specs::Names::is_path, places::specs::Names::is_name))]
pub(crate) fn short_head_place(alloc: Global, repo: &Place) -> Result<Place, AllocError>
    requires { length (text_of repo.now) ≤ repo_limit }
    ensures { IfOk result (λ place. place ≡ repo_head repo.now) }
{
    repo.below(alloc, "HEAD")
}

/// The file of the tip, in such a repository.
pub(crate) fn tip_place(alloc: Global, repo: &Place, head: &Head) -> Result<Place, AllocError>
    requires named { IsNamed (branch_of head.now) }
    requires fits { length (text_of repo.now) ≤ repo_limit }
    ensures { IfOk result (λ place. place ≡ tip_place repo.now (branch_of head.now)) }
{
    match head {
        Head::Branch(name) => {
            let path = branch_path(alloc, name)?;
            repo.below(alloc, path.as_str())
        }
        Head::Detached(_) => short_head_place(alloc, repo),
    }
}
