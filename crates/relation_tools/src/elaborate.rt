//! What follows from predicates, and from assumptions that terms outlive regions.
pub use elaboration_worklist::{ClauseWithSupertraitSpan, Elaboratable};
pub use outlives_assumptions::{
    OutlivesAssumption, assumed_argument, elaborate_outlives_assumptions,
};
pub use relation_elaboration::{ClauseSource, Elaborator, FilterToTraits, elaborate, supertraits};
pub use relation_statements::{SupertraitDefIds, instantiate, supertrait_def_ids};
