//! Laws of the definitions that contracts are said in: of instances and of the keys of types, of renamed predicates, of
//! what predicates imply.
pub use anonymize::laws::renamings;
pub use fast_reject::laws::{equal_keys, instances, keys};
pub use relation_statements::laws::{growth, renamings as implied_renamings, runs};
