//! The parts of terms that are related: at which variance each is, whether it is skipped, and how an error of two parts
//! becomes one of the whole.
#![tactic(auto)]

pub mod diag_info;
pub mod part_errors;
pub mod variances;
