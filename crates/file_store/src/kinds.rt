// What stands at a place.

use places::Text;

/// What stands at a place. Directories are where files stand below; a link is Other.
#[derive(Clone, Copy, Debug, PartialEq, Eq)]
pub enum Kind {
    Absent,
    File,
    Dir,
    Other,
}

/// A name directly below a place, with what stands there.
#[derive(Debug, Drop)]
pub struct Item {
    pub name: Text,
    pub kind: Kind,
}
