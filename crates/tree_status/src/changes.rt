// What has changed between a snapshot and the working files.
//
// Each call goes along the lists once; a path is looked up by binary search, or in a set of paths that is made once.
ghost use Rattle.std.specs.Prelude.{◌≡◌, ℕ, List, map, IfOk, OnOk};
ghost use Rattle.std.specs.Ordering.{nat_cmp};
ghost use Rattle.std.specs.Cmp.Lexicographic.{slice_cmp};
ghost use Rattle.std.specs.BTreeMap.{IsOrdered};
ghost use Rattle.tree_status.specs.declared.found.WorkingFile.{WorkingFile};
ghost use Rattle.tree_status.specs.Changes.{AreOrdered, ArePaths, added, added_state, changes, deleted, is_changed};
ghost use Rattle.tree_status.specs.Changes.{is_gone, is_new, is_other, lacking, new_entries, new_entry, paths_of};
ghost use Rattle.tree_status.specs.Changes.{was_exec};
ghost use Rattle.tree_status.specs.Changed.{HasPaths, kept_changes, shown, state_at, with_states};
ghost use Rattle.tree_status.specs.Keeping.{leaf_at};
ghost use Rattle.tree_status.specs.declared.states.State.TheVariants.{Deleted, Modified};

use crate::found::WorkingFile;
use crate::keeping::leaf_at;
use crate::states::{Change, State};
use crate::visiting::text;
use snapshot::{Entry, Leaf, Snapshot};
use std::alloc::{AllocError, Global};
use std::collections::{BTreeMap, BTreeSet};

fn is_new(old: &Snapshot, file: &WorkingFile) -> bool
    ensures { result ≡ is_new old.now file.now }
{
    match leaf_at(old, file.path.as_str()) {
        Some(Leaf::Git { id, .. }) => id != file.id,
        _ => true,
    }
}

/// The files that are new, or have another blob than they had.
pub fn added_files<'a>(
    alloc: Global,
    old: &Snapshot,
    files: &'a [WorkingFile],
) -> Result<Vec<&'a WorkingFile>, AllocError>
    ensures { IfOk result
        (λ list. shown list.items ≡ added old.now files.now) }
{
    let mut list = Vec::new(alloc);
    for file in files {
        if is_new(old, file) {
            list.push(file)?;
        }
    }
    Ok(list)
}

// The paths of working files, as a set.
fn path_set<'a>(alloc: Global, files: &'a [WorkingFile]) -> Result<BTreeSet<&'a str>, AllocError>
    ensures { IfOk result (λ paths. HasPaths files.now paths) }
{
    let mut paths = BTreeSet::new(alloc);
    for file in files {
        paths.insert(file.path.as_str())?;
    }
    Ok(paths)
}

// Whether an entry's file is not in the set of the files' paths.
fn is_gone(paths: &BTreeSet<&str>, entry: &Entry) -> bool
    ensures { (files : List WorkingFile) → HasPaths files paths.now → result ≡ is_gone files entry.now }
{
    !paths.contains(entry.path.as_str())
}

/// The entries of the snapshot whose files are gone.
pub fn deleted_entries<'a>(
    alloc: Global,
    old: &'a Snapshot,
    files: &[WorkingFile],
) -> Result<Vec<&'a Entry>, AllocError>
    ensures { IfOk result
        (λ list. shown list.items ≡ deleted old.now files.now) }
{
    let paths = path_set(alloc, files)?;
    let mut list = Vec::new(alloc);
    for entry in old.entries() {
        if is_gone(&paths, entry) {
            list.push(entry)?;
        }
    }
    Ok(list)
}

// The working files whose contents the repository lacks.
fn lacking_files<'a>(
    alloc: Global,
    files: &'a [WorkingFile],
) -> Result<Vec<&'a WorkingFile>, AllocError>
    ensures { IfOk result (λ list. shown list.items ≡ lacking files.now) }
{
    let mut list = Vec::new(alloc);
    for file in files {
        if file.lacks {
            list.push(file)?;
        }
    }
    Ok(list)
}

/// Whether the new snapshot is another than the old one.
pub fn is_other(alloc: Global, old: &Snapshot, files: &[WorkingFile]) -> Result<bool, AllocError>
    ensures { IfOk result (λ other. other ≡ is_other old.now files.now) }
{
    if !added_files(alloc, old, files)?.is_empty() {
        return Ok(true);
    }
    Ok(!deleted_entries(alloc, old, files)?.is_empty())
}

/// Whether anything has changed: the snapshot, or a content is lacked.
pub fn is_changed(alloc: Global, old: &Snapshot, files: &[WorkingFile]) -> Result<bool, AllocError>
    ensures { IfOk result (λ changed. changed ≡ is_changed old.now files.now) }
{
    if is_other(alloc, old, files)? {
        return Ok(true);
    }
    Ok(!lacking_files(alloc, files)?.is_empty())
}

// The state of a file that is added, by its path.
fn added_state(old: &Snapshot, path: &str) -> State
    ensures { result ≡ added_state old.now path.now }
{
    match leaf_at(old, path) {
        None => State::Untracked,
        Some(_) => State::Modified,
    }
}

// Keeps the states of the files that are added.
fn keep_added<'a>(
    states: &mut BTreeMap<&'a str, State>,
    old: &Snapshot,
    files: &[&'a WorkingFile],
) -> Result<(), AllocError>
    ensures { OnOk result ((at : List ℕ) → state_at states.new at
        ≡ with_states (added_state old.now) (paths_of (shown files.now)) at (state_at states.old at)) }
{
    for file in files {
        let path = file.path.as_str();
        states.insert(path, added_state(old, path))?;
    }
    Ok(())
}

// Keeps the states of the files whose contents are lacked.
fn keep_lacking<'a>(
    states: &mut BTreeMap<&'a str, State>,
    files: &[&'a WorkingFile],
) -> Result<(), AllocError>
    ensures { OnOk result ((at : List ℕ) → state_at states.new at
        ≡ with_states (λ _. Modified) (paths_of (shown files.now)) at (state_at states.old at)) }
{
    for file in files {
        states.insert(file.path.as_str(), State::Modified)?;
    }
    Ok(())
}

// Keeps the states of the entries that are deleted.
fn keep_deleted<'a>(
    states: &mut BTreeMap<&'a str, State>,
    entries: &[&'a Entry],
) -> Result<(), AllocError>
    ensures { OnOk result ((at : List ℕ) → state_at states.new at
        ≡ with_states (λ _. Deleted) (map (λ entry. entry.path) (shown entries.now)) at (state_at states.old at)) }
{
    for entry in entries {
        states.insert(entry.path.as_str(), State::Deleted)?;
    }
    Ok(())
}

// The changes in the order of their paths.
fn in_order(alloc: Global, states: BTreeMap<&str, State>) -> Result<Vec<Change>, AllocError>
    ensures values { IfOk result (λ list. list.items ≡ kept_changes states.entry.entries) }
    ensures ordered { IfOk result (λ _. IsOrdered (λ one next. slice_cmp nat_cmp one.now next.now) states.entry) }
{
    let mut list = Vec::new(alloc);
    for (path, state) in states {
        let path = text(alloc, path)?;
        list.push(Change { path, state })?;
    }
    Ok(list)
}

/// What has changed, in byte order of the paths.
pub fn changes_of(
    alloc: Global,
    old: &Snapshot,
    files: &[WorkingFile],
) -> Result<Vec<Change>, AllocError>
    ensures changes { IfOk result
        (λ list. list.items ≡ changes old.now files.now) }
    ensures ordered { IfOk result (λ list. AreOrdered list.items) }
{
    let added = added_files(alloc, old, files)?;
    let lacking = lacking_files(alloc, files)?;
    let deleted = deleted_entries(alloc, old, files)?;
    let mut states = BTreeMap::new(alloc);
    keep_deleted(&mut states, deleted.as_slice())?;
    keep_lacking(&mut states, lacking.as_slice())?;
    keep_added(&mut states, old, added.as_slice())?;
    in_order(alloc, states)
}

fn was_exec(old: &Snapshot, path: &str) -> bool
    ensures { result ≡ was_exec (leaf_at path.now old.now) }
{
    match leaf_at(old, path) {
        Some(Leaf::Git { exec, .. }) => exec,
        _ => false,
    }
}

// A working file in the new snapshot.
fn new_entry(alloc: Global, old: &Snapshot, file: &WorkingFile) -> Result<Entry, AllocError>
    ensures { IfOk result (λ entry. entry ≡ new_entry old.now file.now) }
{
    let path = text(alloc, file.path.as_str())?;
    let id = file.id;
    let exec = was_exec(old, file.path.as_str());
    Ok(Entry {
        path,
        leaf: Leaf::Git { id, exec },
    })
}

/// The new snapshot, of all working files.
pub fn new_snapshot(
    alloc: Global,
    old: &Snapshot,
    files: &[WorkingFile],
) -> Result<Snapshot, AllocError>
    requires { ArePaths (paths_of files.now) }
    ensures { IfOk result
        (λ new. new ≡ new_entries old.now files.now) }
{
    let mut entries = Vec::new(alloc);
    for file in files {
        entries.push(new_entry(alloc, old, file)?)?;
    }
    Ok(Snapshot::of_ordered(entries))
}
