//! The history of a dataset: the commits to which a revision leads, along first parents.
#![tactic(auto)]

mod laws;
mod logs;
#[cfg(test)]
mod tests;

pub use laws::{log_is_complete, log_is_one, log_of_name_is_complete};
pub use logs::log;
