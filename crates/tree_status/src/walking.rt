// The walk over a dataset's directories.
//
// A directory is listed once, and what lies in it is taken in byte order of paths: the item at a path by `visit`, and
// what lies in a directory, whose paths go on after a slash, in its turn.
ghost use Rattle.std.specs.Prelude.{◌≡◌, ◌≤◌, ◌+◌, ◌++◌, length, Some, None, MatchOption, List, ℕ, ◌∷◌, []};
ghost use Rattle.places.specs.All.{slash, longest, names_of};
ghost use Rattle.acts.specs.All.{Reads};
ghost use Rattle.tree_status.specs.Keeping.{limit_by};
ghost use Rattle.tree_status.specs.Working.{items, fault_along, walk_fault};
ghost use Rattle.tree_status.specs.Tasks.{IsTask};
ghost use Rattle.tree_status.specs.Walks.{MayMeet, MayWalk, Went, within, part, IsFront, IsAt, IsPlanned, AreWorking};

use crate::found::Found;
use crate::keeping::Keeping;
use crate::planning::planned;
use crate::visiting::{place_below, visit};
use faults::Trouble;
use file_store::{Files, Item, Place};
use places::Text;
use std::alloc::Global;

// What stands before a slash at the end.
fn without_slash(text: &str) -> Option<&str>
    ensures { MatchOption result ((front : List ℕ) → text.now ≡ front ++ slash ∷ [] → ⊥)
        (λ front. text.now ≡ front.now ++ slash ∷ []) }
{
    text.strip_suffix('/')
}

// Takes one task of the directory whose paths begin so: an item, or what lies in a directory.
#[cycle(walking)]
fn take_task<F: Files>(
    alloc: Global,
    files: &mut F,
    root: &Place,
    front: &str,
    task: &Item,
    by: &Keeping,
    found: &mut Found,
) -> Result<(), Trouble>
    requires front { IsFront front.now }
    requires short { length front.now ≤ longest + 1 }
    requires task { IsTask task.now.name }
    ensures { Reads (λ fault. MayMeet root.now fault) F.tells
        (λ g _. IsPlanned root.now g (front.now ++ task.now.name) task.now.kind → Went (limit_by by.now) root.now
        (part (front.now ++ task.now.name) (items root.now g)) found.old found.new)
        (λ g fault. IsPlanned root.now g (front.now ++ task.now.name) task.now.kind → fault_along (limit_by by.now) root.now
        found.old.count (part (front.now ++ task.now.name) (items root.now g)) ≡ Some fault)
        (F.drive files.old) (F.drive files.new) result }
{
    let mut path = String::from_str(alloc, front)?;
    path.push_str(task.name.as_str())?;
    let Some(directory) = without_slash(path.as_str()) else {
        return visit(alloc, files, root, path.as_str(), task.kind, by, found);
    };
    // a directory that has no place was refused at its own turn
    let Some(place) = place_below(alloc, root, directory)? else {
        return Ok(());
    };
    walk(alloc, files, root, &place, path.as_str(), by, found)
}

// Walks over what lies in a directory, whose paths begin so.
#[cycle(walking)]
fn walk<F: Files>(
    alloc: Global,
    files: &mut F,
    root: &Place,
    place: &Place,
    front: &str,
    by: &Keeping,
    found: &mut Found,
) -> Result<(), Trouble>
    requires front { IsFront front.now }
    requires short { length front.now ≤ longest + 1 }
    ensures { Reads (λ fault. MayMeet root.now fault) F.tells
        (λ g _. IsAt root.now place.now front.now → Went (limit_by by.now) root.now (within front.now (items root.now g)) found.old found.new)
        (λ g fault. IsAt root.now place.now front.now → fault_along (limit_by by.now) root.now found.old.count
        (within front.now (items root.now g)) ≡ Some fault)
        (F.drive files.old) (F.drive files.new) result }
{
    let items = files.list(alloc, place)?;
    let tasks = planned(alloc, items.as_slice())?;
    for task in &tasks {
        take_task(alloc, files, root, front, task, by, found)?;
    }
    Ok(())
}

/// The paths of the working files of the dataset at a root, in byte order.
///
/// A dataset within it, and what is neither file nor directory, is refused; so are files, paths and numbers of items
/// beyond the limits. No file is read, only its size is asked.
pub fn working_files<F: Files>(
    alloc: Global,
    files: &mut F,
    root: &Place,
    by: &Keeping,
) -> Result<Vec<Text>, Trouble>
    ensures { Reads (λ fault. MayWalk F.tells root.now fault) F.tells
        (λ g list. AreWorking (limit_by by.now) root.now g list.items)
        (λ g fault. walk_fault (limit_by by.now) root.now g ≡ Some fault) (F.drive files.old) (F.drive files.new) result }
{
    let _text = root.as_str();
    let mut found = Found {
        paths: Vec::new(alloc),
        count: 0,
    };
    walk(alloc, files, root, root, "", by, &mut found)?;
    Ok(found.paths)
}
