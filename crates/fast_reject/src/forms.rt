//! What the depth test reads of one outermost form: what it may stand for, and the depth inside it.
ghost use Rattle.std.specs.Prelude.{◌≡◌, ◌↔◌, true, Some, IsTrue};
ghost use Rattle.relation_terms.specs.Trees.{known};
ghost use Rattle.relation_terms.specs.Meaning.{Meaning, kind_tree, infer_tree, const_tree};
ghost use Rattle.relation_folds.specs.Clashes.{may_stand, is_integral, is_floating_point, flexible, depth_inside};
ghost use Rattle.relation_folds.specs.Outlines.{stands};

use relation_folds::visit::is_known_rigid;
use relation_terms::terms::{
    ConstForm, ConstKind, InferConst, InferTy, Interner, Ty, TyForm, TyKind,
};

/// The depth that a test begins with. Large enough for most types, and small enough to end soon.
pub const STARTING_DEPTH: usize = 8;

/// On which sides parameters may stand for other terms.
#[derive(Clone, Copy)]
pub struct Sides {
    pub left: bool,
    pub right: bool,
}

// Whether a type is one of integers.
fn is_integral_ty<I: Interner>(cx: &I, ty: Ty<I>) -> bool
    requires { IsTrue (known ((I.meaning cx.now).ty ty)) }
    ensures { result ≡ is_integral ((I.meaning cx.now).ty ty) }
{
    let kind = cx.ty_kind(&ty);
    match &kind {
        TyKind::Int(_) | TyKind::Uint(_) => true,
        _ => false,
    }
}

// Whether a type is one of floats.
fn is_floating_point_ty<I: Interner>(cx: &I, ty: Ty<I>) -> bool
    requires { IsTrue (known ((I.meaning cx.now).ty ty)) }
    ensures { result ≡ is_floating_point ((I.meaning cx.now).ty ty) }
{
    let kind = cx.ty_kind(&ty);
    match &kind {
        TyKind::Float(_) => true,
        _ => false,
    }
}

// Whether a type variable may stand for a type: one of integers or floats only for a type of its sort of numbers, or
// for one of which it is not known what it is.
fn var_and_ty_may_unify<I: Interner>(cx: &I, var: InferTy, ty: Ty<I>) -> bool
    requires { IsTrue (known ((I.meaning cx.now).ty ty)) }
    ensures { result ≡ may_stand (infer_tree var) ((I.meaning cx.now).ty ty) }
{
    match var {
        InferTy::IntVar(_) => !is_known_rigid(cx, &ty) || is_integral_ty(cx, ty),
        InferTy::FloatVar(_) => !is_known_rigid(cx, &ty) || is_floating_point_ty(cx, ty),
        InferTy::TyVar(_)
        | InferTy::FreshTy(_)
        | InferTy::FreshIntTy(_)
        | InferTy::FreshFloatTy(_) => true,
    }
}

// Whether a type may stand for another, where it may stand for others at all: a parameter does if `params`.
#[inline(always)]
pub fn may_stand_for<I: Interner>(
    cx: &I,
    kind: &TyForm<I>,
    params: bool,
    other: Ty<I>,
) -> Option<bool>
    requires { IsTrue (known ((I.meaning cx.now).ty other)) }
    ensures { result ≡ stands params (kind_tree (I.meaning cx.now) kind.now) ((I.meaning cx.now).ty other) }
{
    match kind {
        TyKind::Infer(var) => Some(var_and_ty_may_unify(cx, *var, other)),
        TyKind::Alias(_) | TyKind::Bound(..) | TyKind::Error(_) => Some(true),
        TyKind::Param(_) => { if params { Some(true) } else { None } }
        TyKind::Bool
        | TyKind::Char
        | TyKind::Int(_)
        | TyKind::Uint(_)
        | TyKind::Float(_)
        | TyKind::Adt(..)
        | TyKind::Foreign(_)
        | TyKind::Str
        | TyKind::Array(..)
        | TyKind::Pat(..)
        | TyKind::Slice(_)
        | TyKind::RawPtr(..)
        | TyKind::Ref(..)
        | TyKind::FnDef(..)
        | TyKind::FnPtr(..)
        | TyKind::UnsafeBinder(_)
        | TyKind::Dynamic(..)
        | TyKind::Closure(..)
        | TyKind::CoroutineClosure(..)
        | TyKind::Coroutine(..)
        | TyKind::CoroutineWitness(..)
        | TyKind::Never
        | TyKind::Tuple(_)
        | TyKind::Placeholder(_) => None,
    }
}

/// Whether a type stands for another: one that may stand for no others does not.
pub fn stands_for<I: Interner>(cx: &I, kind: &TyForm<I>, params: bool, other: Ty<I>) -> bool
    requires { IsTrue (known ((I.meaning cx.now).ty other)) }
    ensures { IsTrue result ↔
        (stands params (kind_tree (I.meaning cx.now) kind.now) ((I.meaning cx.now).ty other) ≡ Some true) }
{
    match may_stand_for(cx, kind, params, other) {
        Some(may) => may,
        None => false,
    }
}

// Whether a constant may stand for any: a parameter does if `params`.
pub fn is_flexible_const<I: Interner>(kind: &ConstForm<I>, params: bool) -> bool
    ensures { (m : Meaning I.Key I.Id I.Name) → result ≡ flexible params (const_tree m kind.now) }
{
    match kind {
        ConstKind::Param(_) => params,
        ConstKind::Infer(InferConst::Var(_) | InferConst::Fresh(_)) => true,
        ConstKind::Bound(..)
        | ConstKind::Unevaluated(_)
        | ConstKind::Error(_)
        | ConstKind::Expr(..) => true,
        ConstKind::Placeholder(_) | ConstKind::Value(..) => false,
    }
}

/// The depth that is left inside a type: behind an unsafe binder it begins again.
#[inline(always)]
pub fn depth_within<I: Interner>(kind: &TyForm<I>, depth: usize) -> usize
    ensures { (m : Meaning I.Key I.Id I.Name) → result ≡ depth_inside (kind_tree m kind.now) depth }
{
    match kind {
        TyKind::UnsafeBinder(_) => STARTING_DEPTH,
        _ => depth,
    }
}
