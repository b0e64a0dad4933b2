//! Visits of forms that have no key: signatures and predicates of trait objects.
use crate::visit::walk::visit_part;
use crate::visit::{TypeVisitable, TypeVisitor, visit_predicates_with};
use relation_terms::predicate::{ExistentialPredicate, ExistentialProjection, ExistentialTraitRef};
use relation_terms::terms::{ExistentialPredicatesKey, FnSig, Interner, Part};
use std::ops::ControlFlow;

impl<I: Interner> TypeVisitable<I> for ExistentialPredicatesKey<I::Key> {
    fn visit_with<V: TypeVisitor<I>>(&self, cx: &I, visitor: &mut V) -> ControlFlow<()> {
        visit_predicates_with(cx, self, visitor)
    }
}

impl<I: Interner> TypeVisitable<I> for FnSig<I::Key> {
    fn visit_with<V: TypeVisitor<I>>(&self, cx: &I, visitor: &mut V) -> ControlFlow<()> {
        visit_part(cx, &Part::Signature(*self), 0, visitor)
    }
}

impl<I: Interner> TypeVisitable<I> for ExistentialPredicate<I::Key, I::Id> {
    fn visit_with<V: TypeVisitor<I>>(&self, cx: &I, visitor: &mut V) -> ControlFlow<()> {
        visit_part(cx, &Part::Existential(*self), 0, visitor)
    }
}

impl<I: Interner> TypeVisitable<I> for ExistentialTraitRef<I::Key, I::Id> {
    fn visit_with<V: TypeVisitor<I>>(&self, cx: &I, visitor: &mut V) -> ControlFlow<()> {
        visit_part(
            cx,
            &Part::Existential(ExistentialPredicate::Trait(*self)),
            0,
            visitor,
        )
    }
}

impl<I: Interner> TypeVisitable<I> for ExistentialProjection<I::Key, I::Id> {
    fn visit_with<V: TypeVisitor<I>>(&self, cx: &I, visitor: &mut V) -> ControlFlow<()> {
        let predicate = ExistentialPredicate::Projection(*self);
        visit_part(cx, &Part::Existential(predicate), 0, visitor)
    }
}
