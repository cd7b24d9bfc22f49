//! Rows of places, objects, configurations, faults and result lines. This library has tests and nothing else.
#![tactic(auto)]

#[cfg(test)]
mod tests;
