// A snapshot as a value.
ghost use Rattle.std.specs.Prelude.{◌≡◌, MatchOption};
ghost use Rattle.snapshot.specs.Order.{IsOrdered, HasLeaf, LacksPath};

use crate::entries::{Entry, Leaf};
use crate::ordering::{are_ordered, find_leaf};
use std::marker::Model;

/// The paths of a commit's tree, each with its leaf. The paths ascend in byte order, and each is valid.
#[derive(Debug, Drop)]
pub struct Snapshot {
    entries: Vec<Entry>,
}

impl Model for Snapshot {
    ghost use Rattle.std.specs.Prelude.{List};
    ghost use Rattle.snapshot.specs.Order.{IsOrdered};
    ghost use Rattle.snapshot.specs.declared.entries.Entry.{Entry};

    ghost Value = { List Entry };

    ghost view = { λ s. s.entries.items };

    ghost invariant = { λ s. IsOrdered s.entries.items };
}

impl Snapshot {
    /// The snapshot of these paths. None where they don't ascend in byte order, or one isn't valid. Takes no memory.
    pub fn new(entries: Vec<Entry>) -> Option<Snapshot>
        ensures { MatchOption result (¬ (IsOrdered entries.items)) (λ snapshot. snapshot ≡ entries.items) }
    {
        if !are_ordered(entries.as_slice()) {
            return None;
        }
        Some(Snapshot { entries })
    }

    /// The same, of paths that are known to be so.
    pub fn of_ordered(entries: Vec<Entry>) -> Snapshot
        requires { IsOrdered entries.items }
        ensures { result ≡ entries.items }
    {
        Snapshot { entries }
    }

    /// The paths and their leaves, in byte order.
    pub fn entries(&self) -> &[Entry]
        ensures value { result.now ≡ self.now }
        ensures ordered { IsOrdered self.now }
    {
        self.entries.as_slice()
    }

    /// The leaf at a path. Takes no memory.
    pub fn find(&self, path: &str) -> Option<&Leaf>
        ensures leaf { MatchOption result (LacksPath self.now path.now) (λ leaf. HasLeaf self.now path.now leaf.now) }
        ensures ordered { IsOrdered self.now }
    {
        find_leaf(self.entries(), path)
    }
}
