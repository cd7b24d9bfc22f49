// Trees.
ghost use Rattle.std.specs.Prelude.{◌≡◌, ◌↔◌, IsTrue, MatchResult};
ghost use Rattle.std.specs.List.{list_all};
ghost use Rattle.git_objects.specs.Entries.{is_entry, is_tree};
ghost use Rattle.git_objects.specs.Decoding.{IsTreeText};
ghost use Rattle.git_objects.specs.Sorted.{IsAscending, has_key, has_twins};
ghost use Rattle.git_objects.specs.declared.errors.ObjErr.TheVariants.{NoMemory};

use crate::entries::TreeEntry;
use crate::errors::ObjErr;
use std::alloc::Global;

/// The files, links, directories and pins of one directory, in git's order.
#[derive(Debug, Drop)]
pub struct Tree {
    pub entries: Vec<TreeEntry>,
    pub ghost valid: { IsTrue (is_tree entries.items) },
}

// Whether each name is valid.
fn are_named(entries: &[TreeEntry]) -> bool
    ensures { result ≡ list_all is_entry entries.now }
{
    entries.iter().all(|entry| entry.is_entry())
}

// Whether each entry is below the next one.
fn are_ascending(entries: &[TreeEntry]) -> bool
    ensures { IsTrue result ↔ IsAscending entries.now }
{
    entries.is_sorted_by(|one, next| one.sorts_below(next))
}

// Whether an entry is sorted by this text.
pub(crate) fn has_key(entries: &[TreeEntry], key: &[u8]) -> bool
    requires { IsAscending entries.now }
    ensures { result ≡ has_key key.now entries.now }
{
    entries.binary_search_by(|entry| entry.key_cmp(key)).is_ok()
}

// Whether a directory has a file's name.
fn has_twins(entries: &[TreeEntry]) -> bool
    requires { IsAscending entries.now }
    ensures { result ≡ has_twins entries.now }
{
    for entry in entries {
        if entry.mode.is_dir() && has_key(entries, entry.name.as_str().as_bytes()) {
            return true;
        }
    }
    false
}

/// Whether a tree can have these entries.
pub fn are_entries(entries: &[TreeEntry]) -> bool
    ensures { result ≡ is_tree entries.now }
{
    if !are_named(entries) {
        return false;
    }
    if !are_ascending(entries) {
        return false;
    }
    !has_twins(entries)
}

impl Tree {
    /// The body of the tree.
    pub fn encode(&self, alloc: Global) -> Result<Vec<u8>, ObjErr>
        ensures { MatchResult result (λ body. IsTreeText body.items self.now.entries.items)
            (λ e. e ≡ NoMemory) }
    {
        let mut body = Vec::new(alloc);
        for entry in &self.entries {
            entry.append_to(&mut body)?;
        }
        Ok(body)
    }
}
