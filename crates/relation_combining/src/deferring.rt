//! Which pairs are left to goals: aliases, and opaque types in coherence.
ghost use Rattle.std.specs.Prelude.{◌↔◌, IsTrue, IsFalse};
ghost use Rattle.relation_terms.specs.Meaning.{Meaning, kind_tree};
ghost use Rattle.relation_semantics.specs.Contexts.{KnowsTy, KnowsConst};
ghost use Rattle.relation_semantics.specs.Errors.{IsOpaqueBeside};
ghost use Rattle.relation_semantics.specs.Relation.{IsAlias};
ghost use Rattle.relation_semantics.specs.Settings.{DefersAliases, LeavesOpaque};
ghost use Rattle.relation_combining.specs.Deferring.{LeftAs, StandsAs};

use crate::combine::PredicateEmittingRelation;
use relation_semantics::infer_ctxt::InferCtxtLike;
use relation_semantics::relate::StructurallyRelateAliases;
use relation_terms::terms::{AliasTyKind, Const, ConstKind, InferTy, Interner, Ty, TyKind};

// What a type is to relating before its parts are looked at.
#[derive(Clone, Copy)]
pub(crate) enum Standing {
    Error,
    Variable,
    Opaque,
    Alias,
    Other,
}

// What comes of two types neither of which is an error.
#[derive(Clone, Copy)]
pub(crate) enum Deferring {
    ToGoal,
    Open,
    ToNone,
}

// What a form is to relating.
#[inline(always)]
fn standing_by<X, D, N>(kind: &TyKind<X, D, N>) -> Standing
    ensures { (m : Meaning X D N) → StandsAs result (kind_tree m kind.now) }
{
    match kind {
        TyKind::Error(_) => Standing::Error,
        TyKind::Infer(vid) => match vid {
            InferTy::TyVar(_) => Standing::Variable,
            InferTy::IntVar(_) => Standing::Variable,
            InferTy::FloatVar(_) => Standing::Variable,
            _ => Standing::Other,
        },
        TyKind::Alias(alias) => match &alias.kind {
            AliasTyKind::Opaque { .. } => Standing::Opaque,
            _ => Standing::Alias,
        },
        _ => Standing::Other,
    }
}

// What a type of a context is to relating.
#[inline(always)]
pub(crate) fn ty_standing<Infcx: InferCtxtLike>(infcx: &Infcx, ty: &Ty<Infcx::Interner>) -> Standing
    requires { KnowsTy (Infcx.state infcx.now) ty.now }
    ensures { StandsAs result (((Infcx.state infcx.now).meaning).ty ty.now) }
{
    standing_by(&infcx.cx().ty_kind(ty))
}

// Whether what is so is an alias.
fn is_alias(standing: Standing) -> bool
    ensures yes { (t : _) → StandsAs standing t → IsTrue result → IsAlias t }
    ensures no { (t : _) → StandsAs standing t → IsFalse result → IsAlias t → ⊥ }
{
    matches!(standing, Standing::Opaque | Standing::Alias)
}

// Whether the first of two that are so is an opaque type, and the second no variable.
fn is_open(left: Standing, right: Standing) -> bool
    ensures yes { (t u : _) → StandsAs left t → StandsAs right u → IsTrue result → IsOpaqueBeside t u }
    ensures no { (t u : _) → StandsAs left t → StandsAs right u → IsFalse result → IsOpaqueBeside t u → ⊥ }
{
    match left {
        Standing::Opaque => match right {
            Standing::Variable => false,
            _ => true,
        },
        _ => false,
    }
}

// Whether a relation leaves aliases to goals.
pub(crate) fn defers_aliases<Infcx: InferCtxtLike, R: PredicateEmittingRelation<Infcx>>(
    relation: &R,
) -> bool
    ensures { IsTrue result ↔ DefersAliases (R.state relation.now).kept.settings }
{
    if !relation.infcx().next_trait_solver() {
        return false;
    }
    match relation.structurally_relate_aliases() {
        StructurallyRelateAliases::No => true,
        StructurallyRelateAliases::Yes => false,
    }
}

// Whether it leaves open what opaque types are.
fn leaves_opaque<Infcx: InferCtxtLike, R: PredicateEmittingRelation<Infcx>>(relation: &R) -> bool
    ensures { IsTrue result ↔ LeavesOpaque (R.state relation.now).kept.settings }
{
    if relation.infcx().next_trait_solver() {
        return false;
    }
    relation.infcx().typing_mode_raw().is_coherence()
}

// What comes of two types that are so.
pub(crate) fn left_to<Infcx: InferCtxtLike, R: PredicateEmittingRelation<Infcx>>(
    relation: &R,
    left: Standing,
    right: Standing,
) -> Deferring
    ensures { (t u : _) → StandsAs left t → StandsAs right u → LeftAs (R.state relation.now).kept.settings t u result }
{
    if defers_aliases::<Infcx, R>(relation) {
        if is_alias(left) {
            return Deferring::ToGoal;
        }
        if is_alias(right) {
            return Deferring::ToGoal;
        }
        return Deferring::ToNone;
    }
    if !leaves_opaque::<Infcx, R>(relation) {
        return Deferring::ToNone;
    }
    if is_open(left, right) {
        return Deferring::Open;
    }
    if is_open(right, left) {
        return Deferring::Open;
    }
    Deferring::ToNone
}

// Whether a constant isn't evaluated.
pub(crate) fn is_unevaluated<Infcx: InferCtxtLike>(
    infcx: &Infcx,
    ct: &Const<Infcx::Interner>,
) -> bool
    requires { KnowsConst (Infcx.state infcx.now) ct.now }
    ensures { IsTrue result ↔ IsAlias (((Infcx.state infcx.now).meaning).const_ ct.now) }
{
    matches!(infcx.cx().const_kind(ct), ConstKind::Unevaluated(_))
}
