//! Relations in steps: what a relation is, none of whose steps relates anything by itself, and what is asked and promised
//! of terms that are related.
#![tactic(auto)]

pub mod arguments;
pub mod type_relation;
