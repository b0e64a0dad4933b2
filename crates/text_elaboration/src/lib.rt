//! Elaborations of what a text says: what its traits state, and what the pulls answer.
#![tactic(auto)]

pub mod items;
pub mod pulls;
pub mod stating;
