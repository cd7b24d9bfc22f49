//! Location logs: which repositories have a content, and since when.
#![tactic(auto)]

mod counting;
mod cuts;
mod errors;
mod laws;
mod lines;
mod newest;
mod noting;
mod printing;
mod reading;
mod times;

pub use counting::present;
pub use errors::LogErr;
pub use laws::{count_once, have_one_reading, merges_agree, notes_count, reread};
pub use lines::{Claim, LogLine};
pub use noting::{merge, note};
pub use printing::print;
pub use reading::read;
