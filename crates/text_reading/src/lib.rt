//! Questions as text: how they are read, what their names mean, and what is told of a text that is wrong.
#![tactic(auto)]

pub mod naming;
pub mod reading;
pub mod telling;
