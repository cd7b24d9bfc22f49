// The trees of a snapshot, from its paths.
ghost use Rattle.std.specs.Prelude.{◌≡◌, ◌≤◌, ◌<◌, List, ℕ, true, [], ◌∷◌, ◌++◌, length, map, IfOk, MatchOption};
ghost use Rattle.std.specs.Prelude.{MatchResult};
ghost use Rattle.places.specs.All.{slash};
ghost use Rattle.snapshot.specs.Laws.{IsBuilt};
ghost use Rattle.snapshot.specs.Builds.{seen, all_seen, IsSingle, IsGroup, BuildsNext, BuildsDir, BuildRefused};
ghost use Rattle.snapshot.specs.Builds.{PutsTree};
ghost use Rattle.snapshot.specs.Order.{Each, IsPathList, IsSorted, IsValidPath};

use crate::clashes::least_clash;
use crate::entries::{Entry, Leaf};
use crate::ordering::cut_dir;
use crate::snapshots::Snapshot;
use faults::{Fault, Trouble};
use file_store::{Bytes, Text};
use git_objects::{Id, Mode, ObjErr, ObjKind, Tree, TreeEntry, object_id};
use object_store::NewObject;
use std::alloc::{AllocError, Global};

// What is left of a path below a directory, and its leaf.
#[derive(Clone, Copy)]
struct Rest<'a> {
    path: &'a str,
    leaf: Leaf,
}

// The path below a directory with this name.
pub(crate) fn below_name<'a>(path: &'a str, name: &str) -> Option<&'a str>
    ensures { MatchOption result ((rest : List ℕ) → path.now ≡ name.now ++ slash ∷ rest → ⊥)
        (λ rest. path.now ≡ name.now ++ slash ∷ rest.now) }
{
    let rest = without_front(path, name)?;
    without_front(rest, "/")
}

// What follows another text.
fn without_front<'a>(text: &'a str, front: &str) -> Option<&'a str>
    ensures { MatchOption result ((rest : List ℕ) → text.now ≡ front.now ++ rest → ⊥) (λ x. text.now ≡ front.now ++ x.now) }
{
    text.strip_prefix(front)
}

// The name of the directory at the front of a path. None where it is a name alone.
fn first_dir(path: &str) -> Option<&str>
    ensures { MatchOption result (IsSingle path.now)
        (λ name. IsSingle name.now × (rest : List ℕ) × (path.now ≡ name.now ++ slash ∷ rest)) }
{
    let (name, _) = cut_dir(path)?;
    Some(name)
}

// The first entries, as far as they lie in the directory with this name, by what is left of their paths in it.
fn group<'a>(alloc: Global, rests: &[Rest<'a>], name: &str) -> Result<Vec<Rest<'a>>, AllocError>
    ensures { IfOk result (λ part. IsGroup name.now (all_seen rests.now) (all_seen part.items)) }
{
    let mut part = Vec::new(alloc);
    for rest in rests {
        let Some(path) = below_name(rest.path, name) else {
            return Ok(part);
        };
        part.push(Rest {
            path,
            leaf: rest.leaf,
        })?;
    }
    Ok(part)
}

// Builds the first item of a directory, whose paths are the first of the list. Says how many they are.
#[cycle(building)]
fn build_next(
    alloc: Global,
    rests: &[Rest],
    entries: &mut Vec<TreeEntry>,
    objects: &mut Vec<NewObject>,
) -> Result<usize, AllocError>
    requires some { 0 < length rests.now }
    requires paths { IsPathList (all_seen rests.now) }
    ensures { IfOk result (λ taken. BuildsNext (all_seen rests.now) taken
        entries.old.items entries.new.items objects.old.items objects.new.items) }
{
    let Rest { path, leaf } = rests[0];
    match first_dir(path) {
        None => {
            let name = Text::new(String::from_str(alloc, path)?);
            entries.push(leaf.entry(name))?;
            Ok(1)
        }
        Some(name) => {
            let part = group(alloc, rests, name)?;
            let id = build_dir(alloc, part.as_slice(), objects)?;
            let name = Text::new(String::from_str(alloc, name)?);
            entries.push(TreeEntry {
                mode: Mode::Dir,
                name,
                id,
            })?;
            Ok(part.len())
        }
    }
}

// Builds a directory from what is left of its paths, and the trees in it before its own.
#[cycle(building)]
fn build_dir(alloc: Global, rests: &[Rest], objects: &mut Vec<NewObject>) -> Result<Id, AllocError>
    requires { IsPathList (all_seen rests.now) }
    ensures { IfOk result (λ id. BuildsDir (all_seen rests.now) id.0 objects.old.items objects.new.items) }
{
    let mut entries: Vec<TreeEntry> = Vec::new(alloc);
    let mut left = rests;
    while !left.is_empty() {
        let taken = build_next(alloc, left, &mut entries, objects)?;
        left = &left[taken..];
    }
    put_tree(alloc, Tree { entries }, objects)
}

// Adds the object of a tree.
fn put_tree(alloc: Global, tree: Tree, objects: &mut Vec<NewObject>) -> Result<Id, AllocError>
    ensures { IfOk result (λ id. PutsTree tree.entries.items id.0 objects.old.items objects.new.items) }
{
    let body = match tree.encode(alloc) {
        Ok(body) => body,
        Err(ObjErr::NoMemory) => return Err(AllocError),
        Err(_) => unreachable!(),
    };
    let id = object_id(ObjKind::Tree, body.as_slice());
    objects.push(NewObject {
        kind: ObjKind::Tree,
        body: Bytes::new(body),
    })?;
    Ok(id)
}

/// The trees of a snapshot, each after those in it, and the id of the last.
#[derive(Debug, Drop)]
pub struct Built {
    pub root: Id,
    pub trees: Vec<NewObject>,
}

// The whole paths, as what is left of them below the root.
fn whole_paths(alloc: Global, entries: &[Entry]) -> Result<Vec<Rest<'_>>, AllocError>
    ensures { IfOk result (λ rests. all_seen rests.items ≡ entries.now) }
{
    let mut rests = Vec::new(alloc);
    for entry in entries {
        rests.push(Rest {
            path: entry.path.as_str(),
            leaf: entry.leaf,
        })?;
    }
    Ok(rests)
}

// The trees of these paths, which ascend in byte order and are valid.
fn build_entries(alloc: Global, entries: &[Entry]) -> Result<Built, Trouble>
    requires sorted { IsSorted entries.now }
    requires valid { Each (λ e. IsValidPath e.path) entries.now }
    ensures { MatchResult result (λ built. IsBuilt entries.now built.root.0 built.trees.items)
        (BuildRefused entries.now) }
{
    if let Some(path) = least_clash(alloc, entries)? {
        return Err(Trouble::Refused(Fault::PathClash { path }));
    }
    let rests = whole_paths(alloc, entries)?;
    let mut trees = Vec::new(alloc);
    let root = build_dir(alloc, rests.as_slice(), &mut trees)?;
    Ok(Built { root, trees })
}

/// The trees of a snapshot.
///
/// Refuses PathClash of the least path that is also above another one.
pub fn build(alloc: Global, snapshot: &Snapshot) -> Result<Built, Trouble>
    ensures { MatchResult result (λ built. IsBuilt snapshot.now built.root.0 built.trees.items)
        (BuildRefused snapshot.now) }
{
    build_entries(alloc, snapshot.entries())
}
