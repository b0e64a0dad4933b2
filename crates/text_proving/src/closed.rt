//! Whether all is closed in a list of clauses: no inference variable stands in it, and no stand-in for one.
ghost use Rattle.std.specs.Prelude.{IsTrue};
ghost use Rattle.relation_terms.specs.Trees.{known, Leaves};
ghost use Rattle.relation_semantics.specs.Relation.{IsValueLeaf};
ghost use Rattle.text_proving.specs.Closed.{EntersClosed};

use relation_folds::visit::{TypeVisitable, TypeVisitor, Visit};
use relation_terms::terms::{Clauses, Const, ConstKind, Interner, Region, RegionKind, Ty, TyKind};
use std::ops::ControlFlow;

// Stops at what is not closed, and enters all else.
#[derive(Clone, Copy)]
struct FindsOpen;

// What the visitor answers at a type.
fn at_ty<I: Interner>(cx: &I, ty: &Ty<I>) -> Visit
    requires { IsTrue (known ((I.meaning cx.now).ty ty.now)) }
    ensures { EntersClosed ((I.meaning cx.now).ty ty.now) result }
{
    let kind = cx.ty_kind(ty);
    match &kind {
        TyKind::Infer(_) => Visit::Stop,
        TyKind::Bool
        | TyKind::Char
        | TyKind::Int(_)
        | TyKind::Uint(_)
        | TyKind::Float(_)
        | TyKind::Adt(..)
        | TyKind::Foreign(_)
        | TyKind::Str
        | TyKind::Array(..)
        | TyKind::Pat(..)
        | TyKind::Slice(_)
        | TyKind::RawPtr(..)
        | TyKind::Ref(..)
        | TyKind::FnDef(..)
        | TyKind::FnPtr(..)
        | TyKind::UnsafeBinder(_)
        | TyKind::Dynamic(..)
        | TyKind::Closure(..)
        | TyKind::CoroutineClosure(..)
        | TyKind::Coroutine(..)
        | TyKind::CoroutineWitness(..)
        | TyKind::Never
        | TyKind::Tuple(_)
        | TyKind::Alias(_)
        | TyKind::Param(_)
        | TyKind::Bound(..)
        | TyKind::Placeholder(_)
        | TyKind::Error(_) => Visit::Enter,
    }
}

// What it answers at a region.
fn at_region<I: Interner>(cx: &I, region: &Region<I>) -> Visit
    requires { IsTrue (known ((I.meaning cx.now).region region.now)) }
    ensures { EntersClosed ((I.meaning cx.now).region region.now) result }
{
    let kind = cx.region_kind(region);
    match &kind {
        RegionKind::ReVar(_) => Visit::Stop,
        RegionKind::ReStatic
        | RegionKind::ReEarlyParam(_)
        | RegionKind::ReBound(..)
        | RegionKind::RePlaceholder(_) => Visit::Enter,
    }
}

// What it answers at a constant.
fn at_const<I: Interner>(cx: &I, constant: &Const<I>) -> Visit
    requires { IsTrue (known ((I.meaning cx.now).const_ constant.now)) }
    ensures { EntersClosed ((I.meaning cx.now).const_ constant.now) result }
{
    let kind = cx.const_kind(constant);
    match &kind {
        ConstKind::Infer(_) => Visit::Stop,
        ConstKind::Param(_)
        | ConstKind::Bound(..)
        | ConstKind::Placeholder(_)
        | ConstKind::Unevaluated(_)
        | ConstKind::Value(..)
        | ConstKind::Error(_)
        | ConstKind::Expr(..) => Visit::Enter,
    }
}

impl<I: Interner> TypeVisitor<I> for FindsOpen {
    ghost use Rattle.text_proving.specs.Closed.{EntersClosed};

    ghost visits = { λ cx v d t w a. EntersClosed t a };

    fn visit_ty(&mut self, cx: &I, ty: &Ty<I>, _depth: u128) -> Visit {
        at_ty(cx, ty)
    }

    fn visit_region(&mut self, cx: &I, region: &Region<I>, _depth: u128) -> Visit {
        at_region(cx, region)
    }

    fn visit_const(&mut self, cx: &I, constant: &Const<I>, _depth: u128) -> Visit {
        at_const(cx, constant)
    }
}

/// Whether no inference variable stands in clauses, and no stand-in for one. The interner knows them.
pub(crate) fn are_closed<I: Interner>(cx: &I, clauses: &Clauses<I>) -> bool
    requires { IsTrue (known ((I.meaning cx.now).clauses clauses.now)) }
    ensures { IsTrue result → Leaves IsValueLeaf ((I.meaning cx.now).clauses clauses.now) }
{
    match clauses.visit_with(cx, &mut FindsOpen) {
        ControlFlow::Continue(_) => true,
        ControlFlow::Break(_) => false,
    }
}
