//! Rows of keys, pointers and location logs. This library has tests and nothing else.
#![tactic(auto)]

#[cfg(test)]
mod tests;
