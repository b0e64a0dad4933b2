//! Whether two headers of impls overlap: whether some values for what they bind make them one.
#![tactic(auto)]

mod answer;
mod opening;
pub mod overlap;
