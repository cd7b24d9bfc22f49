//! The host's files and outputs: the trusted edge. Each error is counted as a fault, and nothing is
//! told of contents.
#![tactic(auto)]

mod dirty;
mod disk;
mod listing;
mod output;
mod paths;
mod reasons;

pub use disk::HostFiles;
pub use output::HostSink;
pub use reasons::Reason;
