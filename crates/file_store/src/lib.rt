//! The disk and the outputs as traits with a written meaning, and their forms in memory.
#![tactic(auto)]

mod errors;
mod files;
mod kinds;
mod memory;
mod replacing;
mod sinks;

pub use errors::{FileErr, SinkErr};
pub use files::Files;
pub use kinds::{Item, Kind};
pub use memory::{MemErr, MemFiles, MemSink};
pub use places::{Bytes, Place, PlaceErr, Text};
pub use replacing::{Move, Replacement, move_all, remove_all, replace, replace_all, stage};
pub use sinks::{Sink, write_whole};
