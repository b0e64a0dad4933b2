//! Generic arguments and terms.
ghost use Rattle.std.specs.Prelude.{◌≡◌};

use crate::terms::{ConstKey, Keys, RegionKey, TyKey};
use std::alloc::AllocError;

/// What a generic parameter may be given: a region, a type or a constant.
#[derive(PartialEq, Eq, Hash)]
pub enum GenericArgKind<X> {
    Lifetime(RegionKey<X>),
    Ty(TyKey<X>),
    Const(ConstKey<X>),
}

/// What a projection may come to: a type or a constant.
#[derive(PartialEq, Eq, Hash)]
pub enum TermKind<X> {
    Ty(TyKey<X>),
    Const(ConstKey<X>),
}

/// A generic argument of an interner.
pub type GenericArg<I> = GenericArgKind<<I as Keys>::Key>;

/// A term of an interner.
pub type Term<I> = TermKind<<I as Keys>::Key>;

impl<X: Copy> GenericArgKind<X> {
    /// The argument's form. It takes no interner and no memory.
    pub fn kind(&self) -> GenericArgKind<X>
        ensures { result ≡ self.now }
    {
        *self
    }
}

impl<X: Copy> TermKind<X> {
    /// The term's form. It takes no interner and no memory.
    pub fn kind(&self) -> TermKind<X>
        ensures { result ≡ self.now }
    {
        *self
    }
}

impl<X: Copy> Clone for GenericArgKind<X> {
    ghost is_clone = { λ source copy. copy ≡ source };

    ghost is_infallible = { λ _. Unit {0} };

    fn clone(&self) -> Result<Self, AllocError> {
        Ok(*self)
    }
}

impl<X: Copy> Copy for GenericArgKind<X> {}

impl<X: Copy> Clone for TermKind<X> {
    ghost is_clone = { λ source copy. copy ≡ source };

    ghost is_infallible = { λ _. Unit {0} };

    fn clone(&self) -> Result<Self, AllocError> {
        Ok(*self)
    }
}

impl<X: Copy> Copy for TermKind<X> {}
