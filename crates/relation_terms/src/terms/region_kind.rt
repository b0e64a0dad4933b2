//! The forms of regions.
ghost use Rattle.std.specs.Prelude.{◌≡◌};

use crate::terms::{BoundVar, DebruijnIndex, Keys, Placeholder, RegionVid};
use std::alloc::AllocError;

/// The form of a region, over names.
#[derive(PartialEq, Eq, Hash)]
pub enum RegionKind<N> {
    ReStatic,
    ReEarlyParam(EarlyParamRegion<N>),
    /// What a binder binds, that stands so many binders further out.
    ReBound(DebruijnIndex, BoundRegion<N>),
    ReVar(RegionVid),
    RePlaceholder(PlaceholderRegion<N>),
}

/// A region parameter of an item, by its index and its name.
#[derive(Clone, Copy, PartialEq, Eq, Hash)]
pub struct EarlyParamRegion<N> {
    pub index: u32,
    pub name: N,
}

/// A region that a binder binds, by its place in the binder's list and its name.
#[derive(Clone, Copy, PartialEq, Eq, Hash, Debug)]
pub struct BoundRegion<N> {
    pub var: BoundVar,
    pub name: N,
}

/// A placeholder of a region.
pub type PlaceholderRegion<N> = Placeholder<BoundRegion<N>>;

/// The form of an interner's region.
pub type RegionForm<I> = RegionKind<<I as Keys>::Name>;

impl<N: Copy> Clone for RegionKind<N> {
    ghost is_clone = { λ source copy. copy ≡ source };

    ghost is_infallible = { λ _. Unit {0} };

    fn clone(&self) -> Result<Self, AllocError> {
        Ok(*self)
    }
}

impl<N: Copy> Copy for RegionKind<N> {}
