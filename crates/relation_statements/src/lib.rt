//! What traits state, what a stated clause comes to for a type that implements the trait, and what predicates imply by
//! it.
#![tactic(auto)]

mod children;
mod clauses;
mod def_ids;
pub mod instantiate;
pub mod laws;
mod stated;
mod trait_clauses;

pub use children::push_children;
pub use def_ids::{SupertraitDefIds, supertrait_def_ids};
pub use trait_clauses::{BoundTraitRef, trait_reference};
