//! Visits of goals, and of what is recorded of regions.
ghost use Rattle.std.specs.Prelude.{IsTrue};
ghost use Rattle.relation_terms.specs.Trees.{known};
ghost use Rattle.relation_folds.specs.Goals.{two_trees};
ghost use Rattle.relation_folds.specs.Visits.{Walks};

use crate::visit::{TypeVisitable, TypeVisitor};
use relation_terms::predicate::{OutlivesPredicate, RegionConstraint, RegionEqPredicate};
use relation_terms::terms::{GenericArgKind, Goal, Interner};
use std::ops::ControlFlow;

// Goes over two things, one after the other.
fn visit_two<I: Interner, T: TypeVisitable<I>, U: TypeVisitable<I>, V: TypeVisitor<I>>(
    cx: &I,
    first: &T,
    second: &U,
    visitor: &mut V,
) -> ControlFlow<()>
    requires { IsTrue (known (two_trees (T.tree (I.meaning cx.now) first.now) (U.tree (I.meaning cx.now) second.now))) }
    ensures { Walks (V.visits cx.now) 0 visitor.old
        (two_trees (T.tree (I.meaning cx.now) first.now) (U.tree (I.meaning cx.now) second.now)) visitor.new result }
{
    first.visit_with(cx, visitor)?;
    second.visit_with(cx, visitor)
}

impl<I: Interner> TypeVisitable<I> for OutlivesPredicate<I::Key, GenericArgKind<I::Key>> {
    fn visit_with<V: TypeVisitor<I>>(&self, cx: &I, visitor: &mut V) -> ControlFlow<()> {
        visit_two(cx, &self.0, &self.1, visitor)
    }
}

impl<I: Interner> TypeVisitable<I> for RegionEqPredicate<I::Key> {
    fn visit_with<V: TypeVisitor<I>>(&self, cx: &I, visitor: &mut V) -> ControlFlow<()> {
        visit_two(cx, &self.0, &self.1, visitor)
    }
}

impl<I: Interner> TypeVisitable<I> for RegionConstraint<I::Key> {
    fn visit_with<V: TypeVisitor<I>>(&self, cx: &I, visitor: &mut V) -> ControlFlow<()> {
        match self {
            RegionConstraint::Outlives(outlives) => outlives.visit_with(cx, visitor),
            RegionConstraint::Eq(equal) => equal.visit_with(cx, visitor),
        }
    }
}

impl<I: Interner, P: TypeVisitable<I>> TypeVisitable<I> for Goal<I::Key, P> {
    fn visit_with<V: TypeVisitor<I>>(&self, cx: &I, visitor: &mut V) -> ControlFlow<()> {
        visit_two(cx, &self.param_env, &self.predicate, visitor)
    }
}
