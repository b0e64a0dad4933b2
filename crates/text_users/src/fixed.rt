//! Whether all is fixed in a list of arguments: no inference variable stands in it, no stand-in for one, and no
//! parameter of a type or a constant.
ghost use Rattle.std.specs.Prelude.{IsTrue};
ghost use Rattle.relation_terms.specs.Trees.{known, Leaves};
ghost use Rattle.text_users.specs.Fixed.{IsFixedLeaf, EntersFixed};

use relation_folds::visit::{TypeVisitable, TypeVisitor, Visit};
use relation_terms::terms::{
    Const, ConstKind, GenericArgs, Interner, Region, RegionKind, Ty, TyKind,
};
use std::ops::ControlFlow;

// Stops at what is not fixed, and enters all else.
#[derive(Clone, Copy)]
struct FindsUnfixed;

// What the visitor answers at a type.
fn at_ty<I: Interner>(cx: &I, ty: &Ty<I>) -> Visit
    requires { IsTrue (known ((I.meaning cx.now).ty ty.now)) }
    ensures { EntersFixed ((I.meaning cx.now).ty ty.now) result }
{
    match cx.ty_kind(ty) {
        TyKind::Infer(_) => Visit::Stop,
        TyKind::Param(_) => Visit::Stop,
        _ => Visit::Enter,
    }
}

// What it answers at a region.
fn at_region<I: Interner>(cx: &I, region: &Region<I>) -> Visit
    requires { IsTrue (known ((I.meaning cx.now).region region.now)) }
    ensures { EntersFixed ((I.meaning cx.now).region region.now) result }
{
    match cx.region_kind(region) {
        RegionKind::ReVar(_) => Visit::Stop,
        _ => Visit::Enter,
    }
}

// What it answers at a constant.
fn at_const<I: Interner>(cx: &I, constant: &Const<I>) -> Visit
    requires { IsTrue (known ((I.meaning cx.now).const_ constant.now)) }
    ensures { EntersFixed ((I.meaning cx.now).const_ constant.now) result }
{
    match cx.const_kind(constant) {
        ConstKind::Infer(_) => Visit::Stop,
        ConstKind::Param(_) => Visit::Stop,
        _ => Visit::Enter,
    }
}

impl<I: Interner> TypeVisitor<I> for FindsUnfixed {
    ghost use Rattle.text_users.specs.Fixed.{EntersFixed};

    ghost visits = { λ cx v d t w a. EntersFixed t a };

    fn visit_ty(&mut self, cx: &I, ty: &Ty<I>, _depth: u128) -> Visit {
        at_ty(cx, ty)
    }

    fn visit_region(&mut self, cx: &I, region: &Region<I>, _depth: u128) -> Visit {
        at_region(cx, region)
    }

    fn visit_const(&mut self, cx: &I, constant: &Const<I>, _depth: u128) -> Visit {
        at_const(cx, constant)
    }
}

/// Whether no inference variable, no stand-in for one, and no parameter of a type or a constant stands in arguments. The
/// interner knows them.
pub(crate) fn are_fixed<I: Interner>(cx: &I, args: &GenericArgs<I>) -> bool
    requires { IsTrue (known ((I.meaning cx.now).args args.now)) }
    ensures { IsTrue result → Leaves IsFixedLeaf ((I.meaning cx.now).args args.now) }
{
    match args.visit_with(cx, &mut FindsUnfixed) {
        ControlFlow::Continue(_) => true,
        ControlFlow::Break(_) => false,
    }
}
