//! Visits of clauses and predicates by their keys, each under its binder, and of lists and environments of clauses.
ghost use Rattle.std.specs.Prelude.{◌≡◌, ◌<◌, IsTrue};
ghost use Rattle.relation_terms.specs.Trees.{known, count, nth, IsList};
ghost use Rattle.relation_folds.specs.Visits.{Walks};

use crate::visit::{TypeVisitable, TypeVisitor};
use relation_terms::terms::{
    Clause, ClauseKey, Clauses, ClausesKey, Interner, ParamEnvKey, PredicateKey,
};
use std::ops::ControlFlow;

/// How many clauses a list has.
pub fn clause_count<I: Interner>(cx: &I, clauses: &Clauses<I>) -> usize
    requires { IsTrue (known ((I.meaning cx.now).clauses clauses.now)) }
    ensures counts { result ≡ count ((I.meaning cx.now).clauses clauses.now) }
    ensures is_list { IsList ((I.meaning cx.now).clauses clauses.now) }
{
    cx.clauses(clauses).len()
}

/// The clause at a place of a list.
pub fn clause_at<I: Interner>(cx: &I, clauses: &Clauses<I>, place: usize) -> Clause<I>
    requires list_known { IsTrue (known ((I.meaning cx.now).clauses clauses.now)) }
    requires in_bounds { place < count ((I.meaning cx.now).clauses clauses.now) }
    ensures sure { IsTrue (known ((I.meaning cx.now).clause result)) }
    ensures means { (I.meaning cx.now).clause result ≡ nth place ((I.meaning cx.now).clauses clauses.now) }
{
    cx.clauses(clauses)[place]
}

impl<I: Interner> TypeVisitable<I> for ClauseKey<I::Key> {
    fn visit_with<V: TypeVisitor<I>>(&self, cx: &I, visitor: &mut V) -> ControlFlow<()> {
        cx.clause_kind(self).visit_with(cx, visitor)
    }
}

impl<I: Interner> TypeVisitable<I> for PredicateKey<I::Key> {
    fn visit_with<V: TypeVisitor<I>>(&self, cx: &I, visitor: &mut V) -> ControlFlow<()> {
        cx.predicate_kind(self).visit_with(cx, visitor)
    }
}

impl<I: Interner> TypeVisitable<I> for ClausesKey<I::Key> {
    fn visit_with<V: TypeVisitor<I>>(&self, cx: &I, visitor: &mut V) -> ControlFlow<()> {
        for step in 0..clause_count(cx, self) {
            clause_at(cx, self, step).visit_with(cx, visitor)?;
        }
        ControlFlow::Continue(())
    }
}

impl<I: Interner> TypeVisitable<I> for ParamEnvKey<I::Key> {
    fn visit_with<V: TypeVisitor<I>>(&self, cx: &I, visitor: &mut V) -> ControlFlow<()> {
        cx.caller_bounds(self).visit_with(cx, visitor)
    }
}
