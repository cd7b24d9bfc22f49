//! Rows of indexes. This library has tests and nothing else.
#![tactic(auto)]

#[cfg(test)]
mod tests;
