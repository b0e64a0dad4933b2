//! How deep what the questions of a text come to may be, so that the stack holds it. Nothing is promised of that: what is
//! too deep is tried.
#![tactic(auto)]

mod depth;
mod growth;
mod opening;
mod parts;

pub use depth::{Counts, Depths};
pub use growth::{Bounded, Growths};
