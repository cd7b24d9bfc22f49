// What a walk and a look have found.

use git_objects::Id;
use kept_files::Kept;
use places::Text;

/// A working file as it is kept: its path below the root, the id of its new leaf's blob, how it is kept, and whether the
/// repository lacks the content of the old leaf's key, whose bytes the file has.
#[derive(Debug, Drop)]
pub struct WorkingFile {
    pub path: Text,
    pub id: Id,
    pub kept: Kept,
    pub lacks: bool,
}

/// What a walk has found so far: the paths of the files, and how many items it has met.
#[derive(Debug, Drop)]
pub struct Found {
    pub paths: Vec<Text>,
    pub count: u64,
}
