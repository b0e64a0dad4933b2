//! The elaborator: what follows from predicates, each once, as it is pulled.
#![tactic(auto)]

mod elaborator;
mod sources;

pub use elaborator::{Elaborator, elaborate};
pub use sources::{ClauseSource, FilterToTraits, supertraits};
