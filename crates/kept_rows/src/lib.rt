//! Rows of how git keeps working files. This library has tests and nothing else.
#![tactic(auto)]

#[cfg(test)]
mod tests;
