// The paths of a commit's tree, read from the objects that are held.
ghost use Rattle.std.specs.Prelude.{◌≡◌, ◌≤◌, ◌+◌, ◌++◌, [], ◌∷◌, List, ℕ, length, IfOk, OnOk, MatchOption};
ghost use Rattle.places.specs.All.{slash, longest};
ghost use Rattle.acts.specs.All.{Reads};
ghost use Rattle.faults.specs.declared.faults.Fault.TheVariants.{TooLarge};
ghost use Rattle.repository.specs.All.{item_limit};
ghost use Rattle.snapshot.specs.Flattens.{told_path, too_many, GoesOn, IsListed, IsEntryFault};
ghost use Rattle.snapshot.specs.Flattens.{IsReadFault, IsFlat, IsFlattenFault};
ghost use Rattle.snapshot.specs.Order.{IsEntryName};
ghost use Rattle.snapshot.specs.Walks.{IsFront, MayWalk, MayFlatten, Spells, SpellsTree};

use crate::entries::{Entry, Leaf};
use crate::snapshots::Snapshot;
use faults::{Fault, Trouble};
use file_store::{Files, Place, Text};
use git_objects::{Id, TreeEntry};
use object_store::{read_commit, read_tree};
use repository::ITEM_LIMIT;
use std::alloc::{AllocError, Global};

/// The longest path of a snapshot, in bytes.
const LONGEST: usize = 4096;

/// What a reading has found so far: the paths, and how many leaves and directories there are.
#[derive(Drop)]
struct Found {
    entries: Vec<Entry>,
    count: u64,
}

// What stands before a slash at the end.
fn before_slash(path: &str) -> Option<&str>
    ensures { MatchOption result ((front : List ℕ) → path.now ≡ front ++ slash ∷ [] → ⊥)
        (λ front. path.now ≡ front.now ++ slash ∷ []) }
{
    path.strip_suffix("/")
}

// A directory's path as it is told.
fn told_path(path: &str) -> &str
    ensures { result.now ≡ told_path path.now }
{
    if path.is_empty() {
        return ".";
    }
    match before_slash(path) {
        Some(front) => front,
        None => path,
    }
}

// The refusal of a path of that many bytes in a directory.
fn too_long(alloc: Global, path: &str, size: usize) -> Result<Fault, AllocError>
    ensures { IfOk result (λ fault. fault ≡ TooLarge (told_path path.now) size) }
{
    let size = size as u64;
    let path = Text::new(String::from_str(alloc, told_path(path))?);
    Ok(Fault::TooLarge { path, size })
}

// The refusal of a tree with too many leaves and directories.
fn too_many(alloc: Global) -> Result<Fault, AllocError>
    ensures { IfOk result (λ fault. fault ≡ too_many) }
{
    let size = ITEM_LIMIT + 1;
    let path = Text::new(String::from_str(alloc, ".")?);
    Ok(Fault::TooLarge { path, size })
}

// Adds the paths of one entry of the directory whose paths begin so.
#[cycle(flattening)]
fn add_entry<F: Files>(
    alloc: Global,
    files: &mut F,
    repo: &Place,
    path: &str,
    entry: &TreeEntry,
    found: &mut Found,
) -> Result<(), Trouble>
    requires front { IsFront path.now }
    requires path { length path.now ≤ longest + 1 }
    requires named { IsEntryName entry.now.name }
    requires few { found.old.count ≤ item_limit }
    ensures reads { Reads (λ fault. MayWalk repo.now fault) F.tells
        (λ g _. GoesOn repo.now path.now (entry.now ∷ []) found.old found.new g)
        (λ g fault. IsEntryFault repo.now found.old.count path.now entry.now g fault)
        (F.drive files.old) (F.drive files.new) result }
    ensures spells { OnOk result (Spells path.now (entry.now ∷ []) found.old found.new) }
{
    if found.count >= ITEM_LIMIT {
        return Err(Trouble::Refused(too_many(alloc)?));
    }
    let mut full = String::from_str(alloc, path)?;
    full.push_str(entry.name.as_str())?;
    if full.len() > LONGEST {
        return Err(Trouble::Refused(too_long(alloc, path, full.len())?));
    }
    found.count += 1;
    match Leaf::of_mode(entry.mode, entry.id) {
        Some(leaf) => {
            let path = Text::new(full);
            found.entries.push(Entry { path, leaf })?;
            Ok(())
        }
        None => {
            full.push_str("/")?;
            add_tree(alloc, files, repo, full.as_str(), &entry.id, found)
        }
    }
}

// Adds the paths of the directory whose tree has this id, and whose paths begin so.
#[cycle(flattening)]
fn add_tree<F: Files>(
    alloc: Global,
    files: &mut F,
    repo: &Place,
    path: &str,
    id: &Id,
    found: &mut Found,
) -> Result<(), Trouble>
    requires front { IsFront path.now }
    requires path { length path.now ≤ longest + 1 }
    requires few { found.old.count ≤ item_limit }
    ensures reads { Reads (λ fault. MayWalk repo.now fault) F.tells
        (λ g _. IsListed repo.now path.now id.now.0 found.old found.new g)
        (λ g fault. IsReadFault repo.now g found.old.count path.now id.now.0 fault)
        (F.drive files.old) (F.drive files.new) result }
    ensures spells { OnOk result (SpellsTree path.now id.now.0 found.old found.new) }
{
    let tree = read_tree(alloc, files, repo, id)?;
    for entry in &tree.entries {
        add_entry(alloc, files, repo, path, entry, found)?;
    }
    Ok(())
}

/// The snapshot of the commit with this id.
///
/// Refuses what reading the commit and then its trees, in the order of paths, meets first.
pub fn flatten<F: Files>(
    alloc: Global,
    files: &mut F,
    repo: &Place,
    commit: &Id,
) -> Result<Snapshot, Trouble>
    ensures { Reads (λ fault. MayFlatten repo.now commit.now.0 fault) F.tells
        (λ g snapshot. IsFlat repo.now commit.now.0 g snapshot)
        (λ g fault. IsFlattenFault repo.now commit.now.0 g fault) (F.drive files.old) (F.drive files.new) result }
{
    let commit = read_commit(alloc, files, repo, commit)?;
    let mut found = Found {
        entries: Vec::new(alloc),
        count: 0,
    };
    add_tree(alloc, files, repo, "", &commit.tree, &mut found)?;
    Ok(Snapshot::of_ordered(found.entries))
}
