//! Parts of terms, of any sort, and lists of them.
ghost use Rattle.std.specs.Prelude.{◌≡◌};

use crate::predicate::ExistentialPredicate;
use crate::terms::{
    AlternativesKey, ArgsKey, BoundVarsKey, BranchesKey, ConstKey, ExistentialPredicatesKey, FnSig,
    Keys, PatKey, RegionKey, TermKind, TyKey, TysKey, ValTreeKey,
};
use std::alloc::AllocError;

/// A term of any sort that can be a part.
pub enum Part<X, D> {
    Region(RegionKey<X>),
    Ty(TyKey<X>),
    Const(ConstKey<X>),
    ValTree(ValTreeKey<X>),
    Pat(PatKey<X>),
    /// The declared type of a value, a form of its own: its part is the type.
    ValueType(TyKey<X>),
    /// A binder over a body: its part is the body, one binder deeper.
    Binder(BoundVarsKey<X>, Body<X, D>),
    Signature(FnSig<X>),
    /// The inputs of a signature: all types of the list but the last.
    Inputs(TysKey<X>),
    Existential(ExistentialPredicate<X, D>),
    /// The predicates of a trait object, each under its binder.
    Object(ExistentialPredicatesKey<X>),
}

/// What stands under a binder.
pub enum Body<X, D> {
    Signature(FnSig<X>),
    Ty(TyKey<X>),
    Existential(ExistentialPredicate<X, D>),
}

/// A list of parts: those of a form, as the form has them, or a list that has a key.
pub enum Parts<X, D> {
    Empty,
    One(Part<X, D>),
    Two(Part<X, D>, Part<X, D>),
    Args(ArgsKey<X>),
    Tys(TysKey<X>),
    Branches(BranchesKey<X>),
    Alternatives(AlternativesKey<X>),
    /// A term, then arguments.
    TermArgs(TermKind<X>, ArgsKey<X>),
    /// All types of the list but the last.
    Inputs(TysKey<X>),
    Predicates(ExistentialPredicatesKey<X>),
}

/// A part of an interner's terms.
pub type PartOf<I> = Part<<I as Keys>::Key, <I as Keys>::Id>;

/// A list of parts of an interner's terms.
pub type PartsOf<I> = Parts<<I as Keys>::Key, <I as Keys>::Id>;

impl<X: Copy, D: Copy> Clone for Part<X, D> {
    ghost is_clone = { λ source copy. copy ≡ source };

    ghost is_infallible = { λ _. Unit {0} };

    fn clone(&self) -> Result<Self, AllocError> {
        Ok(*self)
    }
}

impl<X: Copy, D: Copy> Copy for Part<X, D> {}

impl<X: Copy, D: Copy> Clone for Body<X, D> {
    ghost is_clone = { λ source copy. copy ≡ source };

    ghost is_infallible = { λ _. Unit {0} };

    fn clone(&self) -> Result<Self, AllocError> {
        Ok(*self)
    }
}

impl<X: Copy, D: Copy> Copy for Body<X, D> {}

impl<X: Copy, D: Copy> Clone for Parts<X, D> {
    ghost is_clone = { λ source copy. copy ≡ source };

    ghost is_infallible = { λ _. Unit {0} };

    fn clone(&self) -> Result<Self, AllocError> {
        Ok(*self)
    }
}

impl<X: Copy, D: Copy> Copy for Parts<X, D> {}
