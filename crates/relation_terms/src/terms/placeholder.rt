//! Placeholders: what stands for a variable of a binder that was entered.
use crate::terms::{BoundVar, UniverseIndex};

/// What stands for a bound variable in a universe.
#[derive(Clone, Copy, PartialEq, Eq, Hash)]
pub struct Placeholder<T> {
    pub universe: UniverseIndex,
    pub bound: T,
}

/// A type that a binder binds, by its place in the binder's list and its name.
#[derive(Clone, Copy, PartialEq, Eq, Hash)]
pub struct BoundTy<N> {
    pub var: BoundVar,
    pub name: N,
}

/// A constant that a binder binds, by its place in the binder's list and its name.
#[derive(Clone, Copy, PartialEq, Eq, Hash)]
pub struct BoundConst<N> {
    pub var: BoundVar,
    pub name: N,
}

/// A placeholder of a type.
pub type PlaceholderType<N> = Placeholder<BoundTy<N>>;

/// A placeholder of a constant.
pub type PlaceholderConst<N> = Placeholder<BoundConst<N>>;
