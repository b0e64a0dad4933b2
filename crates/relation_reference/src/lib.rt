//! A reference context: an inference context as plain as it can be, over any interner; and the reference interner.
#![tactic(auto)]

pub mod context;
pub mod reference;

pub use reference_interner::RefInterner;
