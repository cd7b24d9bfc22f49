//! Datasets: which grounds are sound, and what keeps them so.
#![tactic(auto)]

mod laws;
