//! Tables of variables: what is recorded of each, and how classes of variables become one.
//!
//! A table is one kind's variables by their numbers, over whatever stands for their terms. An inference context has one
//! for each kind, and beside them what else it has recorded.
#![tactic(auto)]

mod inner;
pub mod table;

pub use inner::{InferCtxtInner, Variable, VariableValue};
