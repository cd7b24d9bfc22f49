// What HEAD names.

use git_objects::Id;
use places::Text;

/// A branch by its name, or a commit by its id.
#[derive(Debug, Drop)]
pub enum Head {
    Branch(Text),
    Detached(Id),
}
