//! What relating asks for: what is recorded of two regions, what each goal is, and what opening a round of two binders
//! makes.
#![tactic(auto)]

pub mod goals;
pub mod opening;
pub mod recording;
