//! Rows of objects that are put, read and searched. This library has tests and nothing else.
#![tactic(auto)]

#[cfg(test)]
mod tests;
