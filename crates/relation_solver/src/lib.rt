//! Whether a goal follows from rules, such as impls, and from what an environment has.
#![tactic(auto)]

pub mod laws;
