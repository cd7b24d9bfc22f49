//! Rows of command words. This library has tests and nothing else.
#![tactic(auto)]

#[cfg(test)]
mod tests;
