//! Whether two impls overlap, with what each asks for: whether some values for what they bind make what both give one,
//! and all that both ask for follows.
#![tactic(auto)]

mod answer;
mod asking;
pub mod impls;
