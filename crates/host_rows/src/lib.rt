//! One suite over the host's files and outputs and those in memory. This library has tests and nothing else.
#![tactic(auto)]

#[cfg(test)]
mod tests;
