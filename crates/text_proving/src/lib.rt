//! What a text's impls imply, and what it assumes: rules that are made of clauses; whether a goal follows from them, and
//! whether two impls overlap, where that may be asked.
#![tactic(auto)]

mod closed;
pub mod implied;
pub mod impls;
pub mod open;
pub mod proving;
mod refusing;
pub mod rules;
pub mod sources;
