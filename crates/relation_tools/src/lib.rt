//! What is asked of terms beside relating them, for users who list one crate: walks, components, quick tests, predicates
//! made anonymous, what follows from predicates and assumptions, visits, folds, errors and delayed collections.
#![tactic(auto)]

pub mod elaborate;
pub mod error;
pub mod laws;

pub use anonymize;
pub use delayed_map;
pub use fast_reject;
pub use fast_reject::trait_object;
pub use outlives;
pub use relation_folds::{fold, tree, visit};
pub use walk;
