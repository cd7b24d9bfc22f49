//! Keys of annexed contents: their texts, the key that bytes get, and the pointers that stand in
//! place of a file's bytes.
#![tactic(auto)]

mod contents;
mod copies;
mod errors;
mod extensions;
mod fronts;
mod keys;
mod laws;
mod pointers;
mod printing;
mod reading;

pub use contents::{hash_dir, key_of, matches};
pub use errors::KeyErr;
pub use keys::{Backend, Key};
pub use laws::{have_one_reading, reread_key, reread_pointer, rewrite_key};
pub use pointers::{pointer_text, read_pointer};
pub use printing::to_text;
pub use reading::from_text;
