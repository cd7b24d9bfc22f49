//! Rows of whole calls of the program over files in memory. This library has tests and nothing else.
#![tactic(auto)]

#[cfg(test)]
mod tests;
