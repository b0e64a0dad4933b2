//! Clauses and text: what is built of a text's predicates, over any interner, and how clauses print.
#![tactic(auto)]

pub mod building;
pub mod printing;
