//! The relation of an inference context: it reads terms by what is recorded, records more, registers goals, and remembers
//! which types it has related.
#![tactic(auto)]

mod emitting;
pub mod relation;
mod remembering;
mod steps;
