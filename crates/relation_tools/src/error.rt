//! Errors: why terms are not related, and why an elaboration stopped.
pub use elaboration_worklist::ElabFault;
pub use relation_folds::error::{
    ExpectedFound, NoSolution, OutOfMemory, RelateFault, RelateFaultOf, RelateResult, TypeError,
    TypeErrorOf,
};
