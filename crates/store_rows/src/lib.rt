//! Rows of files in memory, outputs, repositories, snapshots, working files and saves. This library has tests and nothing
//! else.
#![tactic(auto)]

#[cfg(test)]
mod tests;
