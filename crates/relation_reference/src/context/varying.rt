//! How the parts of terms vary with them, where terms are generalised.
ghost use Rattle.std.specs.Prelude.{◌≡◌, ◌<◌, ℕ, IsTrue};
ghost use Rattle.term_enums.specs.Variances.{xform};
ghost use Rattle.relation_terms.specs.Heads.{const_sort};
ghost use Rattle.relation_terms.specs.Trees.{known, count, IsTerm};
ghost use Rattle.relation_terms.specs.Parts.{part_tree, parts_of};
ghost use Rattle.relation_semantics.specs.Lawful.{items_of};
ghost use Rattle.relation_semantics.specs.Generalising.{variance_of_part};

use relation_semantics::variances::{alias_argument_variance, declared_variance, pointee};
use relation_terms::terms::{
    Const, ConstKind, DefId, Interner, Part, PartOf, Ty, TyKind, Variance,
};

// How the part of a type at a place varies with the type.
#[inline(always)]
fn mode_in_ty<I: Interner>(cx: &I, ty: &Ty<I>, i: usize) -> Variance
    requires ty_known { IsTrue (known ((I.meaning cx.now).ty ty.now)) }
    requires in_bounds { i < count (parts_of ((I.meaning cx.now).ty ty.now)) }
    ensures { let t = (I.meaning cx.now).ty ty.now in
        (v : Variance) → variance_of_part (items_of (I.meaning cx.now)) t i v ≡ xform v result }
{
    match &cx.ty_kind(ty) {
        TyKind::Adt(def, _) => declared_variance(cx, &DefId(def.0), i),
        TyKind::FnDef(def, _) => declared_variance(cx, &DefId(def.0), i),
        TyKind::Alias(alias) => alias_argument_variance(cx, &alias.kind, i),
        TyKind::Closure(..)
        | TyKind::CoroutineClosure(..)
        | TyKind::Coroutine(..)
        | TyKind::CoroutineWitness(..) => Variance::Invariant,
        TyKind::RawPtr(_, mutability) => pointee(*mutability),
        TyKind::Ref(_, _, mutability) if i > 0 => pointee(*mutability),
        _ => Variance::Covariant,
    }
}

// How the parts of a constant vary with the constant.
fn mode_in_const<I: Interner>(cx: &I, constant: &Const<I>) -> Variance
    requires { IsTrue (known ((I.meaning cx.now).const_ constant.now)) }
    ensures { let t = (I.meaning cx.now).const_ constant.now in
        (i : ℕ) (v : Variance) → IsTerm const_sort t → i < count (parts_of t) →
        variance_of_part (items_of (I.meaning cx.now)) t i v ≡ xform v result }
{
    match cx.const_kind(constant) {
        ConstKind::Expr(..) | ConstKind::Unevaluated(_) => Variance::Invariant,
        ConstKind::Value(..)
        | ConstKind::Param(_)
        | ConstKind::Infer(_)
        | ConstKind::Bound(..)
        | ConstKind::Placeholder(_)
        | ConstKind::Error(_) => Variance::Covariant,
    }
}

// The variance of the part of a term at a place, the term being at a variance. The type of a value is never related.
#[inline(always)]
pub(crate) fn variance_of<I: Interner>(
    cx: &I,
    term: &PartOf<I>,
    i: usize,
    variance: Variance,
) -> Variance
    requires term_known { IsTrue (known (part_tree (I.meaning cx.now) term.now)) }
    requires in_bounds { i < count (parts_of (part_tree (I.meaning cx.now) term.now)) }
    ensures { let m = I.meaning cx.now in result ≡ variance_of_part (items_of m) (part_tree m term.now) i variance }
{
    match term {
        Part::Ty(ty) => variance.xform(mode_in_ty(cx, ty, i)),
        Part::Const(constant) => variance.xform(mode_in_const(cx, constant)),
        Part::ValueType(_) => Variance::Bivariant,
        Part::Signature(_) if i == 0 => variance.xform(Variance::Contravariant),
        Part::Existential(_) => variance.xform(Variance::Invariant),
        Part::Region(_)
        | Part::ValTree(_)
        | Part::Pat(_)
        | Part::Binder(..)
        | Part::Signature(_)
        | Part::Inputs(_)
        | Part::Object(_) => variance,
    }
}
