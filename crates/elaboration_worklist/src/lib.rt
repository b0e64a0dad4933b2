//! What an elaboration has still to yield: each predicate once, up to the names, order and unused variables of its binder.
#![tactic(auto)]

mod elaboratable;
mod faults;
mod worklist;

pub use elaboratable::{ClauseWithSupertraitSpan, Elaboratable};
pub use faults::ElabFault;
pub use worklist::{Worklist, WorklistOf, push_new};
