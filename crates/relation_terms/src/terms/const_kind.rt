//! The outermost forms of constants and of value trees.
ghost use Rattle.std.specs.Prelude.{◌≡◌};

use crate::terms::{
    ArgsKey, BoundConst, BranchesKey, ConstVid, DebruijnIndex, ErrorGuaranteed, Keys,
    PlaceholderConst, TyKey, UnevaluatedConst, ValTreeKey,
};
use std::alloc::AllocError;

/// The outermost form of a constant, over keys, ids of items and names.
#[derive(PartialEq, Eq, Hash)]
pub enum ConstKind<X, D, N> {
    Param(ParamConst<N>),
    Infer(InferConst),
    /// What a binder binds, that stands so many binders further out.
    Bound(DebruijnIndex, BoundConst<N>),
    Placeholder(PlaceholderConst<N>),
    Unevaluated(UnevaluatedConst<X, D>),
    /// A value and its type.
    Value(TyKey<X>, ValTreeKey<X>),
    Error(ErrorGuaranteed),
    /// An operation and its arguments.
    Expr(ExprKind, ArgsKey<X>),
}

/// A variable that stands for a constant, or a stand-in for one.
#[derive(Clone, Copy, PartialEq, Eq, Hash)]
pub enum InferConst {
    Var(ConstVid),
    /// A stand-in, by its number.
    Fresh(u32),
}

/// A constant parameter of an item, by its index and its name.
#[derive(Clone, Copy, PartialEq, Eq, Hash)]
pub struct ParamConst<N> {
    pub index: u32,
    pub name: N,
}

/// Which operation an expression applies, by a number that its users choose.
#[derive(Clone, Copy, PartialEq, Eq, Hash)]
pub struct ExprKind(pub u32);

/// The outermost form of a value tree, over keys.
#[derive(PartialEq, Eq, Hash)]
pub enum ValTreeKind<X> {
    /// A bit pattern and its size in bytes.
    Leaf { bits: u128, size: u8 },
    /// The constants that a value is made of.
    Branch(BranchesKey<X>),
}

/// The outermost form of an interner's constant.
pub type ConstForm<I> = ConstKind<<I as Keys>::Key, <I as Keys>::Id, <I as Keys>::Name>;

/// The outermost form of an interner's value tree.
pub type ValTreeForm<I> = ValTreeKind<<I as Keys>::Key>;

impl<X: Copy, D: Copy, N: Copy> Clone for ConstKind<X, D, N> {
    ghost is_clone = { λ source copy. copy ≡ source };

    ghost is_infallible = { λ _. Unit {0} };

    fn clone(&self) -> Result<Self, AllocError> {
        Ok(*self)
    }
}

impl<X: Copy, D: Copy, N: Copy> Copy for ConstKind<X, D, N> {}

impl<X: Copy> Clone for ValTreeKind<X> {
    ghost is_clone = { λ source copy. copy ≡ source };

    ghost is_infallible = { λ _. Unit {0} };

    fn clone(&self) -> Result<Self, AllocError> {
        Ok(*self)
    }
}

impl<X: Copy> Copy for ValTreeKind<X> {}
