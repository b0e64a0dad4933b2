//! Visits and folds of terms, the trees that these go through, and the errors of relating. Gives delayed collections
//! again.
#![tactic(auto)]

pub mod error;
pub mod fold;
pub mod tree;
pub mod visit;

pub use delayed_map;
