//! What becomes of a term to which a variable is bound: whether it may stand as it is, gives way to a new variable, or is
//! the variable itself or a placeholder that the variable can't name.
#![tactic(auto)]

pub mod fates;
pub mod term_vid;
