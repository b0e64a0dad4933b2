//! The language of types that relations work on: terms, their keys, and the interner that makes and reads them.
#![tactic(auto)]

pub mod predicate;
pub mod terms;

pub use predicate::laws;
pub use term_enums::hashing;
