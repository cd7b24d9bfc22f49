//! Git's index, version 2: the list of a dataset's paths with their modes and ids, and its text.
#![tactic(auto)]

mod decoding;
mod encoding;
mod entries;
mod errors;
mod fields;
mod laws;
mod paths;
mod reading;
mod validity;

pub use decoding::decode;
pub use encoding::encode;
pub use entries::IndexEntry;
pub use errors::IndexErr;
pub use laws::{have_one_reading, reread};
pub use validity::is_index;
