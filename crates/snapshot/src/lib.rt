//! Snapshots: the paths of a commit's tree, each with its leaf.
#![tactic(auto)]

mod building;
mod clashes;
mod entries;
mod flattening;
mod laws;
mod ordering;
mod pointing;
mod snapshots;

pub use building::{Built, build};
pub use entries::{Entry, Leaf};
pub use flattening::flatten;
pub use laws::{
    build_of_flatten, flatten_of_build, keys_are_of_leaves, leaf_in_standing, path_lists,
    pointers_have_one_end, readings_have_one_end,
};
pub use ordering::is_valid_path;
pub use pointing::{Pointer, pointers};
pub use snapshots::Snapshot;
