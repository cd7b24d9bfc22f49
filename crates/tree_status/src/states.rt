// How a path of a dataset may differ from HEAD's commit.

use places::Text;

/// How a path differs: its file is new; it has another blob than it had, or wasn't a file kept in git; it is gone.
#[derive(Clone, Copy, Debug, PartialEq, Eq)]
pub enum State {
    Untracked,
    Modified,
    Deleted,
}

/// A path below the dataset's root that differs, and how.
#[derive(Debug, Drop)]
pub struct Change {
    pub path: Text,
    pub state: State,
}
