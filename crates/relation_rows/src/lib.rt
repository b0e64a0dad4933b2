//! Worked rows: each asks a few questions as text, or makes calls that no question makes, and stores the answers.
#![tactic(auto)]

mod calls;
mod doubling;
pub mod rows;
pub mod running;
