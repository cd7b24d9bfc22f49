//! Places, and the texts and bytes that values hold: the words that every layer shares.
#![tactic(auto)]

mod names;
mod place;
mod values;
mod words;

pub use names::{is_name, is_path};
pub use place::{Place, PlaceErr};
pub use values::{Bytes, Text};
