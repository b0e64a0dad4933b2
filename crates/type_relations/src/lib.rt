//! Relating terms in an inference context.
#![tactic(auto)]

pub use may_relate;
pub use relation_semantics::infer_ctxt;

pub mod relate;
