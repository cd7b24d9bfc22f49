//! The objects of a repository: one file per object, under its id, written once and never changed.
#![tactic(auto)]

mod looking;
mod objects;
mod putting;
mod reading;
mod searching;

pub use objects::NewObject;
pub use putting::put_all;
pub use reading::{get, held_is_read, read_commit, read_tree};
pub use searching::ids_with_prefix;
