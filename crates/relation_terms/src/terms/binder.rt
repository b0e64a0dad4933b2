//! Binders, and the lists of what they bind.
ghost use Rattle.std.specs.Prelude.{◌≡◌};

use crate::terms::{BoundVarsKey, Keys};
use std::alloc::AllocError;

/// A body, and the list of the variables that stand bound in it. Two binders are equal where both are.
#[derive(Clone, Copy, PartialEq, Eq, Hash)]
pub struct Binder<X, T> {
    pub value: T,
    pub bound_vars: BoundVarsKey<X>,
}

/// What a variable of a binder is, and its name.
#[derive(PartialEq, Eq, Hash)]
pub enum BoundVariableKind<N> {
    Ty(N),
    Region(N),
    Const(N),
}

/// A variable of a binder of an interner.
pub type BoundVariable<I> = BoundVariableKind<<I as Keys>::Name>;

impl<N: Copy> Clone for BoundVariableKind<N> {
    ghost is_clone = { λ source copy. copy ≡ source };

    ghost is_infallible = { λ _. Unit {0} };

    fn clone(&self) -> Result<Self, AllocError> {
        Ok(*self)
    }
}

impl<N: Copy> Copy for BoundVariableKind<N> {}
