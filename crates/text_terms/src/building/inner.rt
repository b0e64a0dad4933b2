//! What stands inside of types and is no argument.
ghost use Rattle.std.specs.Prelude.{◌≡◌, IfSome, map};
ghost use Rattle.text_terms.specs.Built.{term_arg};
ghost use Rattle.text_terms.specs.declared.building.inner.Inner.TheVariants.{Pat, Predicate};

use relation_terms::predicate::ExistentialPredicate;
use relation_terms::terms::{Binder, GenericArgKind, Keys, PatKey, TermKind};
use std::alloc::{AllocError, Global};

/// A pattern, or what a trait object implements, under its binder.
pub(super) enum Inner<X, D> {
    Pat(PatKey<X>),
    Predicate(Binder<X, ExistentialPredicate<X, D>>),
}

impl<X: Copy, D: Copy> Copy for Inner<X, D> {}

impl<X: Copy, D: Copy> Clone for Inner<X, D> {
    ghost is_clone = { λ source copy. copy ≡ source };

    ghost is_infallible = { λ _. Unit {0} };

    fn clone(&self) -> Result<Self, AllocError> {
        Ok(*self)
    }
}

// The same of an interner.
pub(super) type InnerOf<I> = Inner<<I as Keys>::Key, <I as Keys>::Id>;

// Those that are patterns, as such.
pub(super) fn pats_of<X: Copy, D: Copy>(
    alloc: Global,
    inners: &[Inner<X, D>],
) -> Option<Vec<PatKey<X>>>
    ensures { IfSome result (λ pats. map (λ p. Pat p) pats.items ≡ inners.now) }
{
    let mut pats = Vec::new(alloc);
    for inner in inners {
        let Inner::Pat(pat) = *inner else {
            return None;
        };
        if pats.push(pat).is_err() {
            return None;
        }
    }
    Some(pats)
}

// Those that are predicates, as such.
pub(super) fn predicates_of<X: Copy, D: Copy>(
    alloc: Global,
    inners: &[Inner<X, D>],
) -> Option<Vec<Binder<X, ExistentialPredicate<X, D>>>>
    ensures { IfSome result (λ predicates. map (λ p. Predicate p) predicates.items ≡ inners.now) }
{
    let mut predicates = Vec::new(alloc);
    for inner in inners {
        let Inner::Predicate(predicate) = *inner else {
            return None;
        };
        if predicates.push(predicate).is_err() {
            return None;
        }
    }
    Some(predicates)
}

/// A type or a constant, as a term. A region is none.
pub fn term_of<X: Copy>(key: &GenericArgKind<X>) -> Option<TermKind<X>>
    ensures { IfSome result (λ term. key.now ≡ term_arg term) }
{
    match key {
        GenericArgKind::Ty(ty) => Some(TermKind::Ty(*ty)),
        GenericArgKind::Const(constant) => Some(TermKind::Const(*constant)),
        GenericArgKind::Lifetime(_) => None,
    }
}
