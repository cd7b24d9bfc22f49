//! Acts that save: the making of a dataset with its first commit, and the saving of its working files.
#![tactic(auto)]

mod blobs;
mod collisions;
mod configuring;
mod contents;
mod creating;
mod first;
mod laws;
mod lines;
mod planning;
mod saving;
mod wishes;

pub use creating::create;
pub use laws::{
    create_keeps_sound, create_makes, create_refuses, create_remains, save_is_complete,
    save_is_one, save_keeps_sound, save_remains,
};
pub use saving::save;
pub use wishes::SaveWish;
