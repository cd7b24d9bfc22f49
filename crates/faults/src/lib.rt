//! Why commands are refused, their result lines, and the texts of both.
#![tactic(auto)]

mod faults;
mod lines;
mod texts;

pub use faults::{Fault, Trouble};
pub use lines::Line;
pub use texts::fault_text;
