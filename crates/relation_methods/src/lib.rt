//! A table of methods, or of impls, each for a type: what may be for a type is found by the type's key.
#![tactic(auto)]

mod keyed;
pub mod laws;
mod table;

pub use keyed::Entry;
pub use table::{Candidates, EntryOf, MethodTable};
