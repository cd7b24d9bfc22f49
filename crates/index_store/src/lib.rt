//! The index of a dataset: whether it is that of a snapshot, and how it is made so.
#![tactic(auto)]

mod reading;
mod setting;
mod texts;

pub use reading::has_index;
pub use setting::keep_index;
pub use texts::snapshot_text;
