//! Rows of contents and logs of keys. This library has tests and nothing else.
#![tactic(auto)]

#[cfg(test)]
mod many;
#[cfg(test)]
mod tests;
