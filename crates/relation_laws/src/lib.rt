//! Laws of the definitions that relating is said in, and a plain program that answers whether small terms are related.
#![tactic(auto)]

pub mod decided;
#[cfg(test)]
mod decided_tests;
pub mod laws;
