// The entries of a tree.
ghost use Rattle.std.specs.Prelude.{◌≡◌, ◌++◌, OnOk};
ghost use Rattle.std.specs.Cmp.Lexicographic.{slice_cmp};
ghost use Rattle.std.specs.Ordering.{nat_cmp};

use crate::ids::Id;
use places::{Text, is_name};
use std::alloc::AllocError;
use std::cmp::Ordering;

/// `Pin` is the commit at which another repository stands.
#[derive(Clone, Copy, Debug, PartialEq, Eq)]
pub enum Mode {
    File,
    Exec,
    Link,
    Dir,
    Pin,
}

#[derive(Debug, Drop)]
pub struct TreeEntry {
    pub mode: Mode,
    pub name: Text,
    pub id: Id,
}

impl Mode {
    ghost use Rattle.git_objects.specs.Entries.{mode_text, is_dir, name_end};

    pub fn digits(self) -> &'static str
        ensures { result.now ≡ mode_text self }
    {
        match self {
            Mode::File => "100644",
            Mode::Exec => "100755",
            Mode::Link => "120000",
            Mode::Dir => "40000",
            Mode::Pin => "160000",
        }
    }

    pub(crate) fn is_dir(self) -> bool
        ensures { result ≡ is_dir self }
    {
        matches!(self, Mode::Dir)
    }

    // What stands after a name where entries are sorted.
    fn name_end(self) -> &'static [u8]
        ensures { result.now ≡ name_end (is_dir self) }
    {
        if self.is_dir() { b"/" } else { b"" }
    }
}

impl TreeEntry {
    ghost use Rattle.git_objects.specs.Decoding.{IsEntryStored};
    ghost use Rattle.git_objects.specs.Entries.{entry_text, is_entry, sorts_below, sort_key};

    #[tactic(auto, unfolding(crate::specs::Entries::entry_of))]
    pub(crate) fn append_to(&self, body: &mut Vec<u8>) -> Result<(), AllocError>
        ensures text { OnOk result (body.new.items ≡ body.old.items ++ entry_text self.now) }
        ensures stored { OnOk result (IsEntryStored self.now) }
    {
        body.extend_from_slice(self.mode.digits().as_bytes())?;
        body.extend_from_slice(b" ")?;
        body.extend_from_slice(self.name.as_str().as_bytes())?;
        body.extend_from_slice(b"\0")?;
        body.extend_from_slice(&self.id.0)?;
        Ok(())
    }

    #[tactic(auto, unfolding(crate::specs::Entries::is_entry))]
    pub(crate) fn is_entry(&self) -> bool
        ensures { result ≡ is_entry self.now }
    {
        let name = self.name.as_str();
        is_name(name.as_bytes()) && name != ".git" && name != ".dlrepo"
    }

    // The order of what entries are sorted by, beside a text.
    pub(crate) fn key_cmp(&self, key: &[u8]) -> Ordering
        ensures { result ≡ slice_cmp nat_cmp (sort_key self.now) key.now }
    {
        let name = self.name.as_str().as_bytes();
        name.iter()
            .chain(self.mode.name_end().iter())
            .cmp(key.iter())
    }

    pub(crate) fn sorts_below(&self, next: &TreeEntry) -> bool
        ensures { result ≡ sorts_below self.now next.now }
    {
        let one = self.name.as_str().as_bytes();
        let two = next.name.as_str().as_bytes();
        let one = one.iter().chain(self.mode.name_end().iter());
        one.cmp(two.iter().chain(next.mode.name_end().iter()))
            .is_lt()
    }
}
