//! Quick tests, which relate nothing: whether two types may unify at all, and the keys by which tables of methods and
//! impls find what may be for a type.
#![tactic(auto)]

mod consts;
mod deep;
mod forms;
pub mod laws;
mod pairs;
mod simplify;
pub mod trait_object;
mod walk;

pub use deep::DeepRejectCtxt;
pub use simplify::{SimplifiedType, TreatParams, simplify_type};
