//! What predicates and contexts say of regions.
ghost use Rattle.std.specs.Prelude.{◌≡◌};
ghost use Rattle.std.specs.Iterator.{YieldsFirst, item_count};
ghost use Rattle.relation_terms.specs.Regions.{both_outlive, outlives_of, is_trivial};
ghost use Rattle.relation_terms.specs.declared.predicate.regions.RegionConstraint.TheVariants as constraint;

use crate::terms::{GenericArgKind, RegionKey};
use std::alloc::AllocError;
use std::marker::Model;

/// The first outlives the second.
#[derive(Clone, Copy, PartialEq, Eq, Hash)]
pub struct OutlivesPredicate<X, A>(pub A, pub RegionKey<X>);

/// Both regions outlive each other.
#[derive(Clone, Copy, PartialEq, Eq, Hash)]
pub struct RegionEqPredicate<X>(pub RegionKey<X>, pub RegionKey<X>);

impl<X: Copy> RegionEqPredicate<X> {
    /// The first region outlives the second, and the second the first.
    pub fn into_bidirectional_outlives(self) -> [OutlivesPredicate<X, GenericArgKind<X>>; 2]
        ensures { result ≡ both_outlive self }
    {
        [
            OutlivesPredicate(GenericArgKind::Lifetime(self.0), self.1),
            OutlivesPredicate(GenericArgKind::Lifetime(self.1), self.0),
        ]
    }
}

/// What a context records of regions.
#[derive(PartialEq, Eq, Hash)]
pub enum RegionConstraint<X> {
    Outlives(OutlivesPredicate<X, GenericArgKind<X>>),
    Eq(RegionEqPredicate<X>),
}

impl<X: Copy> Clone for RegionConstraint<X> {
    ghost is_clone = { λ source copy. copy ≡ source };

    ghost is_infallible = { λ _. Unit {0} };

    fn clone(&self) -> Result<Self, AllocError> {
        Ok(*self)
    }
}

impl<X: Copy> Copy for RegionConstraint<X> {}

impl<X> From<OutlivesPredicate<X, GenericArgKind<X>>> for RegionConstraint<X> {
    ghost from_gives = { λ outlives made. made ≡ constraint.Outlives outlives };

    fn from(outlives: OutlivesPredicate<X, GenericArgKind<X>>) -> RegionConstraint<X> {
        RegionConstraint::Outlives(outlives)
    }
}

impl<X> From<RegionEqPredicate<X>> for RegionConstraint<X> {
    ghost from_gives = { λ equal made. made ≡ constraint.Eq equal };

    fn from(equal: RegionEqPredicate<X>) -> RegionConstraint<X> {
        RegionConstraint::Eq(equal)
    }
}

impl<X: Copy + Eq> RegionConstraint<X> {
    /// Whether this says of a region only that it outlives or equals itself.
    pub fn is_trivial(&self) -> bool
        ensures { result ≡ is_trivial X.eq self.now }
    {
        match self {
            RegionConstraint::Outlives(OutlivesPredicate(GenericArgKind::Lifetime(a), b)) => {
                a.0 == b.0
            }
            RegionConstraint::Outlives(_) => false,
            RegionConstraint::Eq(RegionEqPredicate(a, b)) => a.0 == b.0,
        }
    }
}

impl<X: Copy> RegionConstraint<X> {
    /// What outlives which by this constraint, one after another: one of a constraint that something outlives, and for
    /// equal regions each way. It takes no memory.
    pub fn iter_outlives(self) -> OutlivesIter<X>
        ensures { result ≡ outlives_of self }
    {
        match self {
            RegionConstraint::Outlives(outlives) => OutlivesIter {
                first: Some(outlives),
                second: None,
            },
            // As `into_bidirectional_outlives` has them; of an array it would have to be known that it fits into
            // memory.
            RegionConstraint::Eq(RegionEqPredicate(a, b)) => OutlivesIter {
                first: Some(OutlivesPredicate(GenericArgKind::Lifetime(a), b)),
                second: Some(OutlivesPredicate(GenericArgKind::Lifetime(b), a)),
            },
        }
    }
}

/// What outlives which by a constraint, as far as it is still to come.
#[derive(Drop)]
pub struct OutlivesIter<X> {
    first: Option<OutlivesPredicate<X, GenericArgKind<X>>>,
    second: Option<OutlivesPredicate<X, GenericArgKind<X>>>,
}

impl<X> Model for OutlivesIter<X> {
    ghost use Rattle.std.specs.Prelude.{List};
    ghost use Rattle.relation_terms.specs.Regions.{left_of};
    ghost use Rattle.relation_terms.specs.declared.predicate.regions.OutlivesPredicate.{OutlivesPredicate};
    ghost use Rattle.relation_terms.specs.declared.terms.generic_arg.GenericArgKind.{GenericArgKind};

    ghost Value = { List (OutlivesPredicate X (GenericArgKind X)) };

    ghost view = { λ it. left_of it.first it.second };
}

impl<X: Copy> Iterator for OutlivesIter<X> {
    type Item = OutlivesPredicate<X, GenericArgKind<X>>;

    ghost next_gives = { YieldsFirst (λ left. left) };

    ghost remaining = { item_count (λ left. left) };

    fn next(&mut self) -> Option<OutlivesPredicate<X, GenericArgKind<X>>> {
        let item = self.first?;
        self.first = self.second;
        self.second = None;
        Some(item)
    }
}
