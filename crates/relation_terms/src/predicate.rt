//! Predicates.
mod alias_term;
mod alias_term_kind;
mod conversions;
mod edits;
mod existential;
mod existential_projection;
mod item_args;
mod kinds;
pub mod laws;
mod object_predicate;
mod parent;
mod projection;
mod projection_term;
mod regions;
mod trait_clause;
mod trait_ref;

pub use alias_term::{AliasTerm, AliasTermKind, NormalizesTo, ProjectionPredicate};
pub use conversions::{clause_of_projection, clause_of_trait_predicate, clause_of_trait_ref};
pub use existential::{
    ExistentialPredicate, ExistentialProjection, ExistentialTraitRef, ObjectPredicate,
};
pub use item_args::{extend_with_error, identity_args};
pub use kinds::{
    ClauseForm, ClauseKind, CoercePredicate, PredicateForm, PredicateKind, SubtypePredicate,
};
pub use regions::{OutlivesIter, OutlivesPredicate, RegionConstraint, RegionEqPredicate};
pub use term_enums::{AliasRelationDirection, BoundConstness, ImplPolarity, PredicatePolarity};
pub use trait_clause::as_trait_clause;
pub use trait_ref::{HostEffectPredicate, TraitPredicate, TraitRef};
