//! Terms and text: what is built of a text's terms, over any interner, and how terms print.
#![tactic(auto)]

pub mod building;
pub mod printing;
