//! The outermost forms of patterns.
ghost use Rattle.std.specs.Prelude.{◌≡◌};

use crate::terms::{AlternativesKey, ConstKey, Keys};
use std::alloc::AllocError;

/// The outermost form of a pattern, over keys.
#[derive(PartialEq, Eq, Hash)]
pub enum PatternKind<X> {
    /// The values between two constants, both included.
    Range {
        start: ConstKey<X>,
        end: ConstKey<X>,
    },
    /// What one of the alternatives admits.
    Or(AlternativesKey<X>),
    /// All but null.
    NotNull,
}

/// The outermost form of an interner's pattern.
pub type PatternForm<I> = PatternKind<<I as Keys>::Key>;

impl<X: Copy> Clone for PatternKind<X> {
    ghost is_clone = { λ source copy. copy ≡ source };

    ghost is_infallible = { λ _. Unit {0} };

    fn clone(&self) -> Result<Self, AllocError> {
        Ok(*self)
    }
}

impl<X: Copy> Copy for PatternKind<X> {}
