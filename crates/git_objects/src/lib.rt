//! Objects of git: ids, trees and commits, and the texts that they are stored as.
#![tactic(auto)]

mod commit_decoding;
mod commits;
mod cuts;
mod decoding;
mod entries;
mod errors;
mod headers;
mod ids;
mod laws;
mod numbers;
mod objects;
mod people;
mod reading;
mod trees;

pub use commits::Commit;
pub use entries::{Mode, TreeEntry};
pub use errors::ObjErr;
pub use headers::is_extra;
pub use ids::Id;
pub use laws::{reread_commit, reread_tree, rewrite_commit, rewrite_tree, texts_have_one_reading};
pub use objects::{ObjKind, blob_id, object_id, object_text};
pub use people::{Person, is_person};
pub use reading::read_object;
pub use trees::{Tree, are_entries};
