//! The contents that a repository keeps under their keys, and the logs of who has them.
#![tactic(auto)]

mod contents;
mod keeping;
mod keeping_all;
mod laws;
mod layout;
mod limits;
mod logs;
mod members;
mod noting;
mod setting;
mod storing;

pub use contents::{content, has};
pub use keeping::keep;
pub use keeping_all::keep_all;
pub use laws::keep_is_honest;
pub use limits::{CONTENT_LIMIT, LOG_LIMIT};
pub use logs::log_of;
pub use members::NewContent;
pub use setting::set_log;
