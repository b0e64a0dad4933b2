//! Aliases: types and constants that stand for others.
ghost use Rattle.std.specs.Prelude.{◌≡◌};

use crate::terms::{
    ArgsKey, FreeTyAliasId, InherentAssocTyId, OpaqueTyId, TraitAssocTyId, UnevaluatedConstId,
};
use std::alloc::AllocError;

/// Which kind of alias a type is, and its id.
#[derive(PartialEq, Eq, Hash)]
pub enum AliasTyKind<D> {
    /// An associated type of a trait.
    Projection { def_id: TraitAssocTyId<D> },
    /// An associated type of an inherent impl.
    Inherent { def_id: InherentAssocTyId<D> },
    /// An opaque type.
    Opaque { def_id: OpaqueTyId<D> },
    /// A type alias.
    Free { def_id: FreeTyAliasId<D> },
}

/// A type that is an alias, by its kind and its arguments.
#[derive(PartialEq, Eq, Hash)]
pub struct AliasTy<X, D> {
    pub kind: AliasTyKind<D>,
    pub args: ArgsKey<X>,
}

/// A constant that is not evaluated, by its id and its arguments.
#[derive(Clone, Copy, PartialEq, Eq, Hash)]
pub struct UnevaluatedConst<X, D> {
    pub def: UnevaluatedConstId<D>,
    pub args: ArgsKey<X>,
}

/// Says that an error was reported where a type or a constant could not be told.
#[derive(Clone, Copy, PartialEq, Eq, Hash)]
pub struct ErrorGuaranteed;

impl<D: Copy> Clone for AliasTyKind<D> {
    ghost is_clone = { λ source copy. copy ≡ source };

    ghost is_infallible = { λ _. Unit {0} };

    fn clone(&self) -> Result<Self, AllocError> {
        Ok(*self)
    }
}

impl<D: Copy> Copy for AliasTyKind<D> {}

impl<X: Copy, D: Copy> Clone for AliasTy<X, D> {
    ghost is_clone = { λ source copy. copy ≡ source };

    ghost is_infallible = { λ _. Unit {0} };

    fn clone(&self) -> Result<Self, AllocError> {
        Ok(*self)
    }
}

impl<X: Copy, D: Copy> Copy for AliasTy<X, D> {}
