//! Visits of binders over anything that can be visited: what stands in the body stands one binder deeper.
ghost use Rattle.std.specs.Prelude.{◌≡◌, IsTrue};
ghost use Rattle.relation_terms.specs.Trees.{known};
ghost use Rattle.relation_folds.specs.Visits.{Walks, deeper};

use crate::visit::{TypeVisitable, TypeVisitor, Visit};
use relation_terms::terms::{Binder, Const, Interner, Region, Ty};
use std::ops::ControlFlow;

// A visitor that is told of one binder more than there are around what it is asked about.
#[derive(Drop)]
struct InBinder<'a, V> {
    visitor: &'a mut V,
}

// One binder deeper, as far as there are numbers.
fn one_deeper(depth: u128) -> u128
    ensures { result ≡ deeper depth }
{
    if depth < u128::MAX { depth + 1 } else { depth }
}

impl<'a, V> InBinder<'a, V> {
    // Goes over a body, in order, until the visitor stops.
    fn visit_body<I: Interner, T: TypeVisitable<I>>(&mut self, cx: &I, body: &T) -> ControlFlow<()>
    where
        V: TypeVisitor<I>,
        requires { IsTrue (known (T.tree (I.meaning cx.now) body.now)) }
        ensures same_reference { self.new.visitor.ghost_name ≡ self.old.visitor.ghost_name }
        ensures walks { Walks (V.visits cx.now) (deeper 0) self.old.visitor.now
            (T.tree (I.meaning cx.now) body.now) self.new.visitor.now result }
    {
        body.visit_with(cx, self)
    }

    // The visitor that it stands for.
    fn into_visitor(self) -> &'a mut V
        ensures same_reference { result.ghost_name ≡ self.entry.visitor.ghost_name }
        ensures value { result.now ≡ self.entry.visitor.now }
    {
        let InBinder { visitor } = self;
        visitor
    }
}

impl<'a, I: Interner, V: TypeVisitor<I>> TypeVisitor<I> for InBinder<'a, V> {
    ghost use Rattle.std.specs.Prelude.{◌≡◌};
    ghost use Rattle.relation_folds.specs.Visits.{deeper};

    ghost visits = { λ cx v d t w a. (w.visitor.ghost_name ≡ v.visitor.ghost_name) ×
        V.visits cx v.visitor.now (deeper d) t w.visitor.now a };

    fn visit_ty(&mut self, cx: &I, ty: &Ty<I>, depth: u128) -> Visit {
        self.visitor.visit_ty(cx, ty, one_deeper(depth))
    }

    fn visit_region(&mut self, cx: &I, region: &Region<I>, depth: u128) -> Visit {
        self.visitor.visit_region(cx, region, one_deeper(depth))
    }

    fn visit_const(&mut self, cx: &I, constant: &Const<I>, depth: u128) -> Visit {
        self.visitor.visit_const(cx, constant, one_deeper(depth))
    }
}

impl<I: Interner, T: TypeVisitable<I>> TypeVisitable<I> for Binder<I::Key, T> {
    fn visit_with<V: TypeVisitor<I>>(&self, cx: &I, visitor: &mut V) -> ControlFlow<()> {
        let mut inside = InBinder { visitor };
        let flow = inside.visit_body(cx, &self.value);
        let _visitor = inside.into_visitor();
        flow
    }
}
