//! Rows of HEAD, branches and revisions. This library has tests and nothing else.
#![tactic(auto)]

#[cfg(test)]
mod tests;
