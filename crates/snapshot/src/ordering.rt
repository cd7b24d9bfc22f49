// Which paths are valid, and whether they ascend in byte order.
ghost use Rattle.std.specs.Prelude.{◌≡◌, ◌↔◌, ◌++◌, ◌∷◌, IsTrue, MatchOption};
ghost use Rattle.std.specs.Cmp.Lexicographic.{slice_cmp};
ghost use Rattle.std.specs.Ordering.{nat_cmp, is_lt};
ghost use Rattle.places.specs.All.{slash};
ghost use Rattle.git_objects.specs.All.{is_entry};
ghost use Rattle.snapshot.specs.Builds.{IsSingle};
ghost use Rattle.snapshot.specs.Order.{Each, IsSorted, IsValidPath, IsOrdered, is_entry_name, HasLeaf, LacksPath};

use crate::entries::{Entry, Leaf};
use places::is_name;
use std::cmp::Ordering;

// The name of the directory at the front of a path, and what lies below it. None where it is a name alone.
pub(crate) fn cut_dir(path: &str) -> Option<(&str, &str)>
    ensures { MatchOption result (IsSingle path.now)
        (λ parts. IsSingle parts.0.now × (path.now ≡ parts.0.now ++ slash ∷ parts.1.now)) }
{
    path.split_once('/')
}

// Whether a tree's entry can have this name.
#[tactic(auto, unfolding(git_objects::specs::Entries::is_entry))]
fn is_entry_name(name: &str) -> bool
    ensures { result ≡ is_entry_name name.now }
{
    is_name(name.as_bytes()) && name != ".git" && name != ".dlrepo"
}

/// Whether it is names with slashes between them, as a snapshot's path is.
pub fn is_valid_path(path: &str) -> bool
    ensures { IsTrue result ↔ IsValidPath path.now }
{
    let mut rest = path;
    while let Some((name, more)) = cut_dir(rest) {
        if !is_entry_name(name) {
            return false;
        }
        rest = more;
    }
    is_entry_name(rest)
}

fn are_valid(entries: &[Entry]) -> bool
    ensures { IsTrue result ↔ Each (λ e. IsValidPath e.path) entries.now }
{
    for entry in entries {
        if !is_valid_path(entry.path.as_str()) {
            return false;
        }
    }
    true
}

fn is_below(one: &Entry, next: &Entry) -> bool
    ensures { result ≡ is_lt (slice_cmp nat_cmp one.now.path next.now.path) }
{
    path_cmp(one, next.path.as_str()).is_lt()
}

fn are_ascending(entries: &[Entry]) -> bool
    ensures { IsTrue result ↔ IsSorted entries.now }
{
    entries.is_sorted_by(|one, next| is_below(one, next))
}

/// Whether the paths ascend in byte order, and each is valid.
pub(crate) fn are_ordered(entries: &[Entry]) -> bool
    ensures { IsTrue result ↔ IsOrdered entries.now }
{
    if !are_ascending(entries) {
        return false;
    }
    are_valid(entries)
}

// The order of an entry's path beside another one.
fn path_cmp(entry: &Entry, path: &str) -> Ordering
    ensures { result ≡ slice_cmp nat_cmp entry.now.path path.now }
{
    entry.path.as_str().as_bytes().cmp(path.as_bytes())
}

/// The leaf at a path, among paths that ascend. Takes no memory.
pub(crate) fn find_leaf<'a>(entries: &'a [Entry], path: &str) -> Option<&'a Leaf>
    requires { IsSorted entries.now }
    ensures { MatchOption result (LacksPath entries.now path.now) (λ leaf. HasLeaf entries.now path.now leaf.now) }
{
    match entries.binary_search_by(|entry| path_cmp(entry, path)) {
        Ok(at) => Some(&entries[at].leaf),
        Err(_) => None,
    }
}
