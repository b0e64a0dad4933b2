//! Which variable a term of a context is.
ghost use Rattle.std.specs.Prelude.{◌≡◌, ◌↔◌, ℕ, false, not, IsTrue, IsFalse, IfSome, IfNone};
ghost use Rattle.relation_terms.specs.Flags.{has_non_region_infer};
ghost use Rattle.relation_terms.specs.Trees.{known};
ghost use Rattle.relation_semantics.specs.Contexts.{KnowsTy, KnowsConst};
ghost use Rattle.relation_combining.specs.Deferring.{IsOrdinary, AreOrdinary, StandsAs, AreByParts};
ghost use Rattle.relation_combining.specs.declared.deferring.Standing.TheVariants.{Alias};
ghost use Rattle.relation_combining.specs.Variables.{MeansTyVar, MeansConstVar, IsFormedWithin, IsFormedConstWithin};
ghost use Rattle.relation_combining.specs.Variables.{one_has_variable};

use crate::combine::PredicateEmittingRelation;
use crate::deferring::{Standing, defers_aliases, ty_standing};
use relation_semantics::infer_ctxt::InferCtxtLike;
pub use relation_semantics::variable_forms::{const_vid, float_vid, int_vid, ty_vid};
use relation_terms::terms::{Const, ConstVid, Interner, Ty, TyVid};

/// The type variable that a type of a context is, or none.
pub fn ty_var<Infcx: InferCtxtLike>(infcx: &Infcx, ty: &Ty<Infcx::Interner>) -> Option<TyVid>
    requires { KnowsTy (Infcx.state infcx.now) ty.now }
    ensures is { IfSome result (λ v. MeansTyVar (Infcx.state infcx.now) ty.now v.0) }
    ensures is_none { IfNone result ((n : ℕ) → MeansTyVar (Infcx.state infcx.now) ty.now n → ⊥) }
{
    ty_vid(&infcx.cx().ty_kind(ty))
}

// The constant variable that a constant is, or none.
pub(crate) fn const_var<Infcx: InferCtxtLike>(
    infcx: &Infcx,
    constant: &Const<Infcx::Interner>,
) -> Option<ConstVid>
    requires { KnowsConst (Infcx.state infcx.now) constant.now }
    ensures is { IfSome result (λ v. MeansConstVar (Infcx.state infcx.now) constant.now v.0) }
    ensures formed { IfNone result (IsFormedConstWithin (Infcx.state infcx.now).meaning constant.now) }
{
    const_vid(&infcx.cx().const_kind(constant))
}

// Whether no variable but of regions stands in a type, so that it has a form if nothing in it escapes a binder.
fn has_no_variable<I: Interner>(cx: &I, ty: &Ty<I>) -> bool
    requires { IsTrue (known ((I.meaning cx.now).ty ty.now)) }
    ensures tells { result ≡ not (has_non_region_infer ((I.meaning cx.now).ty ty.now)) }
    ensures formed { IsTrue result → IsFormedWithin (I.meaning cx.now) ty.now }
{
    !cx.ty_flags(ty).has_non_region_infer
}

/// Whether no variable but of regions stands in two types of a context.
pub fn have_no_variable<Infcx: InferCtxtLike>(
    infcx: &Infcx,
    a: &Ty<Infcx::Interner>,
    b: &Ty<Infcx::Interner>,
) -> bool
    requires a_known { KnowsTy (Infcx.state infcx.now) a.now }
    requires b_known { KnowsTy (Infcx.state infcx.now) b.now }
    ensures none { IsTrue result → one_has_variable (Infcx.state infcx.now).meaning a.now b.now ≡ false }
    ensures one { IsFalse result → IsTrue (one_has_variable (Infcx.state infcx.now).meaning a.now b.now) }
    ensures a_formed { IsTrue result → IsFormedWithin (Infcx.state infcx.now).meaning a.now }
    ensures b_formed { IsTrue result → IsFormedWithin (Infcx.state infcx.now).meaning b.now }
{
    let cx = infcx.cx();
    if !has_no_variable(cx, a) {
        return false;
    }
    has_no_variable(cx, b)
}

// Whether a type of a context is ordinary: neither an error, nor a variable, nor an alias.
#[inline(always)]
fn is_ordinary<Infcx: InferCtxtLike>(infcx: &Infcx, ty: &Ty<Infcx::Interner>) -> bool
    requires { KnowsTy (Infcx.state infcx.now) ty.now }
    ensures { IsTrue result ↔ IsOrdinary ((Infcx.state infcx.now).meaning.ty ty.now) }
{
    matches!(ty_standing(infcx, ty), Standing::Other)
}

/// Whether two types of a context are ordinary: neither errors, nor variables, nor aliases. Such a pair is left to its
/// parts: nothing is bound, recorded or registered before. Upstream it is the last case of `super_combine_tys`.
#[inline(always)]
pub fn are_ordinary<Infcx: InferCtxtLike>(
    infcx: &Infcx,
    a: &Ty<Infcx::Interner>,
    b: &Ty<Infcx::Interner>,
) -> bool
    requires a_known { KnowsTy (Infcx.state infcx.now) a.now }
    requires b_known { KnowsTy (Infcx.state infcx.now) b.now }
    ensures { IsTrue result ↔ AreOrdinary (Infcx.state infcx.now).meaning a.now b.now }
{
    if !is_ordinary(infcx, a) {
        return false;
    }
    is_ordinary(infcx, b)
}

// Whether a type of a context is an alias, and no opaque type.
#[inline(always)]
fn is_plain_alias<Infcx: InferCtxtLike>(infcx: &Infcx, ty: &Ty<Infcx::Interner>) -> bool
    requires { KnowsTy (Infcx.state infcx.now) ty.now }
    ensures { IsTrue result → StandsAs Alias ((Infcx.state infcx.now).meaning.ty ty.now) }
{
    matches!(ty_standing(infcx, ty), Standing::Alias)
}

/// Whether two types are aliases that a relation leaves to their parts: no opaque types, and set up so that aliases are
/// not left to goals. Nothing is bound, recorded or registered before. Upstream it is the last case of
/// `super_combine_tys`, as for ordinary types.
#[inline(always)]
pub fn are_aliases_by_parts<Infcx: InferCtxtLike, R: PredicateEmittingRelation<Infcx>>(
    relation: &R,
    a: &Ty<Infcx::Interner>,
    b: &Ty<Infcx::Interner>,
) -> bool
    requires a_known { IsTrue (known ((R.state relation.now).meaning.ty a.now)) }
    requires b_known { IsTrue (known ((R.state relation.now).meaning.ty b.now)) }
    ensures { IsTrue result → AreByParts (R.state relation.now) a.now b.now }
{
    if defers_aliases::<Infcx, R>(relation) {
        return false;
    }
    let infcx = relation.infcx();
    if !is_plain_alias(infcx, a) {
        return false;
    }
    is_plain_alias(infcx, b)
}
