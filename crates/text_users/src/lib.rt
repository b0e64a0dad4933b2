//! Questions of a text to the users of the layer: whether the headers of two impls overlap, where that may be asked;
//! which methods of a table may be for a type; whether the regions of a context can be as it has recorded, and how what
//! is answered is written.
#![tactic(auto)]

mod fixed;
pub mod methods;
pub mod overlapping;
mod printing;
mod regions;
mod rows;

pub use printing::write_solved;
pub use regions::{NotSolved, StatedOutlives, ask_solved};
