//! How git keeps a working file: as a blob of its bytes, as a pointer to a content, or as it was kept before.
#![tactic(auto)]

mod judging;
mod kept;
mod laws;
mod limits;
mod paths;

pub use judging::how_kept;
pub use kept::Kept;
pub use laws::kept_is_one;
pub use limits::size_limit;
