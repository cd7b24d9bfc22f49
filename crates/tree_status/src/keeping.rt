// By what working files are kept.
ghost use Rattle.std.specs.Prelude.{◌≡◌, IfOk, Some, option_copied};
ghost use Rattle.std.specs.Ordering.{nat_cmp};
ghost use Rattle.std.specs.Cmp.Lexicographic.{slice_cmp};
ghost use Rattle.kept_files.specs.All.{leaf_id};
ghost use Rattle.snapshot.specs.All.{AreAscending, AreOfFiles, key_at};
ghost use Rattle.tree_status.specs.Keeping.{IsKeptBy, leaf_at, limit_by, old_blob, old_key};

use annex_keys::Key;
use git_objects::Id;
use kept_files::{Kept, how_kept, size_limit};
use snapshot::{Leaf, Pointer, Snapshot};
use std::alloc::{AllocError, Global};
use std::cmp::Ordering;
use std::marker::Model;

/// A snapshot with the keys of its annexed leaves, and whether git keeps new files.
#[derive(Debug, Drop)]
pub struct Keeping {
    old: Snapshot,
    pointers: Vec<Pointer>,
    to_git: bool,
}

impl Model for Keeping {
    ghost use Rattle.snapshot.specs.All.{AreOfFiles};
    ghost use Rattle.tree_status.specs.Keeping.{KeepBy};

    ghost Value = { KeepBy };

    ghost view = { λ k. record {
      old = k.old;
      pointers = k.pointers.items;
      to_git = k.to_git;
    } };

    ghost invariant = { λ k. AreOfFiles k.old k.pointers.items };
}

/// The leaf at a path of a snapshot. Takes no memory.
pub(crate) fn leaf_at(old: &Snapshot, path: &str) -> Option<Leaf>
    ensures { result ≡ leaf_at path.now old.now }
{
    old.find(path).copied()
}

// The order of a pointer's path beside another one.
fn path_cmp(pointer: &Pointer, path: &str) -> Ordering
    ensures { result ≡ slice_cmp nat_cmp pointer.now.path path.now }
{
    pointer.path.as_str().as_bytes().cmp(path.as_bytes())
}

// The key at a path, among pointers whose paths ascend. Takes no memory.
fn find_key<'a>(pointers: &'a [Pointer], path: &str) -> Option<&'a Key>
    requires { AreAscending pointers.now }
    ensures { option_copied result ≡ key_at path.now pointers.now }
{
    match pointers.binary_search_by(|pointer| path_cmp(pointer, path)) {
        Ok(at) => Some(&pointers[at].key),
        Err(_) => None,
    }
}

impl Keeping {
    /// `pointers` are the annexed leaves of the snapshot, as `snapshot::pointers` gives them.
    pub fn new(old: Snapshot, pointers: Vec<Pointer>, to_git: bool) -> Keeping
        requires { AreOfFiles old pointers.items }
        ensures { result ≡ record { old = old; pointers = pointers.items; to_git = to_git } }
    {
        Keeping {
            old,
            pointers,
            to_git,
        }
    }

    /// The snapshot.
    pub fn old(&self) -> &Snapshot
        ensures value { result.now ≡ self.now.old }
        ensures files { AreOfFiles self.now.old self.now.pointers }
    {
        &self.old
    }

    /// The leaf at a path. Takes no memory.
    pub fn leaf(&self, path: &str) -> Option<Leaf>
        ensures { result ≡ leaf_at path.now self.now.old }
    {
        leaf_at(self.old(), path)
    }

    /// The id of the blob of the leaf at a path, where that is a file. Takes no memory.
    pub fn blob(&self, path: &str) -> Option<Id>
        ensures { result ≡ old_blob self.now path.now }
    {
        match self.leaf(path) {
            Some(Leaf::Git { id, .. }) => Some(id),
            _ => None,
        }
    }

    /// The key of the leaf at a path, where that is annexed. Takes no memory.
    pub fn key(&self, path: &str) -> Option<&Key>
        ensures { option_copied result ≡ old_key self.now path.now }
    {
        find_key(self.pointers.as_slice(), path)
    }

    /// How many bytes the file at a path may have: 67,108,864 where it would be annexed, 16,777,216 where git would keep
    /// it.
    pub fn limit(&self, path: &str) -> u64
        ensures { result ≡ limit_by self.now path.now }
    {
        size_limit(self.blob(path), self.key(path), path, self.to_git)
    }

    /// How a file with these bytes is kept at a path. Fails only for want of memory.
    pub fn kept(&self, alloc: Global, path: &str, bytes: &[u8]) -> Result<Kept, AllocError>
        ensures { IfOk result (λ kept. IsKeptBy self.now path.now bytes.now kept) }
    {
        how_kept(
            alloc,
            self.blob(path),
            self.key(path),
            path,
            bytes,
            self.to_git,
        )
    }

    /// The id of the blob of a file's new leaf, where the file has these bytes and is kept so.
    pub fn leaf_id(&self, path: &str, bytes: &[u8], kept: &Kept) -> Id
        requires { IsKeptBy self.now path.now bytes.now kept.now }
        ensures { leaf_id kept.now (old_blob self.now path.now) bytes.now ≡ Some result.0 }
    {
        // an annexed leaf is that of a file
        let _entries = self.old().entries();
        kept.leaf_id(self.blob(path), bytes).unwrap()
    }
}
