//! The commands: their words, what each one does, and the top call that the program makes.
#![tactic(auto)]

mod ended;
mod finding;
mod help;
mod messages;
mod reporting;
mod status;
mod top;
mod words;

pub use ended::{Ended, run};
pub use status::Status;
pub use top::datalad;
