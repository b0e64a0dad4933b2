//! An inference context over plain tables.

mod binders;
mod clearing;
mod copying;
mod equating;
mod folding;
mod generalising;
mod infer_ctxt;
mod instantiating;
mod keeping;
mod memory;
mod numbers;
mod own_variables;
mod reading;
mod recording;
mod region_constraints;
mod resolving;
mod shallow;
mod sub_unified;
mod universes;
mod variables;
mod varying;

pub use variable_classes::VariableClasses;
pub use variable_tables::table::VariableTable;
pub use variable_tables::{InferCtxtInner, Variable, VariableValue};
pub use variables::RefCtxt;
