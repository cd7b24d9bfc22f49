// The paths of a snapshot and what stands at them.
ghost use Rattle.std.specs.Prelude.{◌≡◌, true, MatchOption};
ghost use Rattle.snapshot.specs.Leaves.{mode_of, id_of, leaf_entry};
ghost use Rattle.git_objects.specs.All.{is_dir};

use git_objects::{Id, Mode, TreeEntry};
use places::Text;

/// `Pin` is the commit at which another dataset stands.
#[derive(Clone, Copy, Debug, PartialEq, Eq)]
pub enum Leaf {
    Git { id: Id, exec: bool },
    Link { id: Id },
    Pin { id: Id },
}

/// A path from the dataset's root, and what stands there.
#[derive(Debug, Drop)]
pub struct Entry {
    pub path: Text,
    pub leaf: Leaf,
}

impl Leaf {
    /// The leaf that a tree's entry names, None for a directory.
    pub(crate) fn of_mode(mode: Mode, id: Id) -> Option<Leaf>
        ensures { MatchOption result (is_dir mode ≡ true) (λ leaf. (mode_of leaf ≡ mode) × (id_of leaf ≡ id)) }
    {
        match mode {
            Mode::File => Some(Leaf::Git { id, exec: false }),
            Mode::Exec => Some(Leaf::Git { id, exec: true }),
            Mode::Link => Some(Leaf::Link { id }),
            Mode::Pin => Some(Leaf::Pin { id }),
            Mode::Dir => None,
        }
    }

    /// The mode of its entry in a tree.
    pub fn mode(self) -> Mode
        ensures { result ≡ mode_of self }
    {
        match self {
            Leaf::Git { exec: false, .. } => Mode::File,
            Leaf::Git { exec: true, .. } => Mode::Exec,
            Leaf::Link { .. } => Mode::Link,
            Leaf::Pin { .. } => Mode::Pin,
        }
    }

    /// The id of its object.
    pub fn id(self) -> Id
        ensures { result ≡ id_of self }
    {
        match self {
            Leaf::Git { id, .. } | Leaf::Link { id } | Leaf::Pin { id } => id,
        }
    }

    /// The entry of a tree that names it.
    pub(crate) fn entry(self, name: Text) -> TreeEntry
        ensures { result ≡ leaf_entry name self }
    {
        TreeEntry {
            mode: self.mode(),
            name,
            id: self.id(),
        }
    }
}
