// What a status and a save look at: HEAD's commit, the snapshot of its tree, and the working files.
ghost use Rattle.std.specs.Prelude.{◌≡◌, ◌↔◌, IfOk, IsTrue, Some};
ghost use Rattle.std.specs.List.{AllByRecursion};
ghost use Rattle.std.specs.List.Sorted.{IsStrictlySortedBy};
ghost use Rattle.std.specs.Cmp.Lexicographic.{slice_cmp};
ghost use Rattle.std.specs.Ordering.{nat_cmp, is_lt};
ghost use Rattle.acts.specs.All.{Reads};
ghost use Rattle.repository.specs.All.{repo_of};
ghost use Rattle.snapshot.specs.All.{IsValidPath};
ghost use Rattle.tree_status.specs.Changes.{ArePaths, paths_of};
ghost use Rattle.tree_status.specs.Keeping.{limit_by};
ghost use Rattle.tree_status.specs.Looks.{pin_fault, IsRepo, IsUnread};
ghost use Rattle.tree_status.specs.Views.{AreFiles, IsKeeping, IsNoKeeping, IsView, MayReadFiles, MayReadKeeping, MayView};
ghost use Rattle.tree_status.specs.Working.{walk_fault};

use crate::found::WorkingFile;
use crate::keeping::Keeping;
use crate::keeping_files::keep_files;
use crate::visiting::text;
use crate::walking::working_files;
use faults::{Fault, Trouble};
use file_store::{Files, Place};
use git_objects::Id;
use places::Text;
use ref_store::tip;
use repository::{PLACE_LIMIT, too_large};
use snapshot::{Leaf, Snapshot, flatten, is_valid_path, pointers};
use std::alloc::{AllocError, Global};

/// The repository of a dataset, refused where HEAD has no place in it.
#[tactic(auto, unfolding(places::specs::Names::is_path, places::specs::Names::is_name))]
pub fn repo(alloc: Global, root: &Place) -> Result<Place, Trouble>
    ensures { IsRepo root.now result }
{
    let head = root.joined(alloc, ".dlrepo/HEAD")?;
    if PLACE_LIMIT < head.len() {
        return Err(Trouble::Refused(too_large(head)));
    }
    Ok(root.below(alloc, ".dlrepo")?)
}

/// HEAD's commit, its snapshot with the keys of its annexed leaves, and the working files as they are kept by it.
#[derive(Drop)]
pub struct View {
    pub parent: Id,
    pub by: Keeping,
    pub files: Vec<WorkingFile>,
}

// The refusal of the first pin in a snapshot.
fn pin_refusal(alloc: Global, snapshot: &Snapshot) -> Result<Option<Fault>, AllocError>
    ensures { IfOk result (λ fault. fault ≡ pin_fault snapshot.now) }
{
    for entry in snapshot.entries() {
        if let Leaf::Pin { .. } = entry.leaf {
            let path = text(alloc, entry.path.as_str())?;
            return Ok(Some(Fault::UnsupportedMode { path }));
        }
    }
    Ok(None)
}

// By what working files are kept, where HEAD's commit has this id.
fn read_keeping<F: Files>(
    alloc: Global,
    files: &mut F,
    repo: &Place,
    commit: &Id,
    to_git: bool,
) -> Result<Keeping, Trouble>
    ensures { Reads (λ fault. MayReadKeeping repo.now commit.now.0 fault) F.tells
        (λ g by. IsKeeping repo.now g commit.now.0 to_git by)
        (λ g fault. IsNoKeeping repo.now g commit.now.0 fault) (F.drive files.old) (F.drive files.new) result }
{
    let old = flatten(alloc, files, repo, commit)?;
    if let Some(fault) = pin_refusal(alloc, &old)? {
        return Err(Trouble::Refused(fault));
    }
    let pointers = pointers(alloc, files, repo, &old)?;
    Ok(Keeping::new(old, pointers, to_git))
}

fn is_below(one: &Text, next: &Text) -> bool
    ensures { result ≡ is_lt (slice_cmp nat_cmp one.now next.now) }
{
    let order = one.as_str().as_bytes().cmp(next.as_str().as_bytes());
    order.is_lt()
}

fn are_ascending(paths: &[Text]) -> bool
    ensures { IsTrue result ↔ IsStrictlySortedBy (slice_cmp nat_cmp) paths.now }
{
    paths.is_sorted_by(|one, next| is_below(one, next))
}

fn are_valid(paths: &[Text]) -> bool
    ensures { IsTrue result ↔ AllByRecursion IsValidPath paths.now }
{
    for path in paths {
        if !is_valid_path(path.as_str()) {
            return false;
        }
    }
    true
}

// Whether the paths ascend in byte order, and each is one that a snapshot can have.
fn are_paths(paths: &[Text]) -> bool
    ensures { IsTrue result ↔ ArePaths paths.now }
{
    if !are_ascending(paths) {
        return false;
    }
    are_valid(paths)
}

// The first path, empty where there is none.
fn first_path(alloc: Global, paths: &[Text]) -> Result<Text, AllocError> {
    match paths.first() {
        Some(path) => text(alloc, path.as_str()),
        None => text(alloc, ""),
    }
}

// Walks over the working files, and reads each.
fn read_files<F: Files>(
    alloc: Global,
    files: &mut F,
    root: &Place,
    repo: &Place,
    by: &Keeping,
) -> Result<Vec<WorkingFile>, Trouble>
    requires repo { repo.now ≡ repo_of root.now }
    ensures reads { Reads (λ fault. MayReadFiles F.tells root.now fault) F.tells
        (λ g list. AreFiles root.now g by.now list.items)
        (λ g fault. walk_fault (limit_by by.now) root.now g ≡ Some fault)
        (F.drive files.old) (F.drive files.new) result }
    ensures ordered { IfOk result (λ list. ArePaths (paths_of list.items)) }
{
    let paths = working_files(alloc, files, root, by)?;
    if !are_paths(paths.as_slice()) {
        let path = first_path(alloc, paths.as_slice())?;
        return Err(Trouble::Refused(Fault::Dirty { path }));
    }
    keep_files(alloc, files, root, repo, by, paths.as_slice())
}

/// Looks at HEAD and its branch, the commit and its trees, the pointers among its files, and the working files. Where
/// `to_git`, git keeps new files.
///
/// Refuses the first fault that this reading meets, in this order; a pin in the snapshot is UnsupportedMode.
/// The paths of files that don't tell may be none that a snapshot can have, or in no order: that is Dirty.
pub fn read_view<F: Files>(
    alloc: Global,
    files: &mut F,
    root: &Place,
    repo: &Place,
    to_git: bool,
) -> Result<View, Trouble>
    requires repo { repo.now ≡ repo_of root.now }
    ensures reads { Reads (λ fault. MayView F.tells root.now fault) F.tells (λ g view. IsView root.now to_git g view)
        (λ g fault. IsUnread root.now to_git g fault) (F.drive files.old) (F.drive files.new) result }
    ensures ordered { IfOk result (λ view. ArePaths (paths_of view.files.items)) }
{
    let parent = tip(alloc, files, repo)?;
    let by = read_keeping(alloc, files, repo, &parent, to_git)?;
    let files = read_files(alloc, files, root, repo, &by)?;
    Ok(View { parent, by, files })
}
