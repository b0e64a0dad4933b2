//! What a traversal keeps, over elements of any kind: which were met, and which are still to come.
#![tactic(auto)]

mod keeping;
mod met;
mod pre_order;
mod stack;

pub use keeping::keep;
pub use met::{Met, none_met};
pub use pre_order::PreOrder;
pub use stack::Stack;
