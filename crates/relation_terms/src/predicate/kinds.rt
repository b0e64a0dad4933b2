//! The outermost forms of clauses and of predicates.
ghost use Rattle.std.specs.Prelude.{◌≡◌};

use crate::predicate::{
    HostEffectPredicate, NormalizesTo, OutlivesPredicate, ProjectionPredicate, TraitPredicate,
};
use crate::terms::{AliasRelationDirection, Binder, ConstKey, Keys, RegionKey, TermKind, TyKey};
use std::alloc::AllocError;

/// What may be taken to hold, over keys, ids of items and names.
#[derive(PartialEq, Eq, Hash)]
pub enum ClauseKind<X, D, N> {
    Trait(TraitPredicate<X, D>),
    RegionOutlives(OutlivesPredicate<X, RegionKey<X>>),
    TypeOutlives(OutlivesPredicate<X, TyKey<X>>),
    Projection(ProjectionPredicate<X, D>),
    /// The constant is of the type.
    ConstArgHasType(ConstKey<X>, TyKey<X>),
    /// What a type or a constant asks of its arguments holds.
    WellFormed(TermKind<X>),
    /// The constant can be evaluated.
    ConstEvaluatable(ConstKey<X>),
    HostEffect(HostEffectPredicate<X, D>),
    /// The unstable feature of the name is allowed.
    UnstableFeature(N),
}

/// What can be asked to hold, over keys, ids of items and names.
#[derive(PartialEq, Eq, Hash)]
pub enum PredicateKind<X, D, N> {
    Clause(ClauseKind<X, D, N>),
    Subtype(SubtypePredicate<X>),
    Coerce(CoercePredicate<X>),
    NormalizesTo(NormalizesTo<X, D>),
    /// Two terms, of which one is an alias, are equal, or the first is a subtype of the second.
    AliasRelate(TermKind<X>, TermKind<X>, AliasRelationDirection),
    /// What is neither known to hold nor known to fail.
    Ambiguous,
}

/// The first type is a subtype of the second.
#[derive(Clone, Copy, PartialEq, Eq, Hash)]
pub struct SubtypePredicate<X> {
    /// Whether the first is what an error tells as expected.
    pub a_is_expected: bool,
    pub a: TyKey<X>,
    pub b: TyKey<X>,
}

/// The first type can be made the second by a coercion.
#[derive(Clone, Copy, PartialEq, Eq, Hash)]
pub struct CoercePredicate<X> {
    pub a: TyKey<X>,
    pub b: TyKey<X>,
}

/// The outermost form of an interner's clause, under its binder.
pub type ClauseForm<I> = Binder<
    <I as Keys>::Key,
    ClauseKind<<I as Keys>::Key, <I as Keys>::Id, <I as Keys>::Name>,
>;

/// The outermost form of an interner's predicate, under its binder.
pub type PredicateForm<I> = Binder<
    <I as Keys>::Key,
    PredicateKind<<I as Keys>::Key, <I as Keys>::Id, <I as Keys>::Name>,
>;

impl<X: Copy, D: Copy, N: Copy> Clone for ClauseKind<X, D, N> {
    ghost is_clone = { λ source copy. copy ≡ source };

    ghost is_infallible = { λ _. Unit {0} };

    fn clone(&self) -> Result<Self, AllocError> {
        Ok(*self)
    }
}

impl<X: Copy, D: Copy, N: Copy> Copy for ClauseKind<X, D, N> {}

impl<X: Copy, D: Copy, N: Copy> Clone for PredicateKind<X, D, N> {
    ghost is_clone = { λ source copy. copy ≡ source };

    ghost is_infallible = { λ _. Unit {0} };

    fn clone(&self) -> Result<Self, AllocError> {
        Ok(*self)
    }
}

impl<X: Copy, D: Copy, N: Copy> Copy for PredicateKind<X, D, N> {}
