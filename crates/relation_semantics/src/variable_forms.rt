//! Which variable a form is.
ghost use Rattle.std.specs.Prelude.{◌≡◌, IfSome, IfNone};
ghost use Rattle.relation_terms.specs.declared.terms.ty_kind.TyKind.TheVariants.{Infer};
ghost use Rattle.relation_terms.specs.declared.terms.ty_kind.InferTy.TheVariants.{TyVar, IntVar, FloatVar};
ghost use Rattle.relation_terms.specs.declared.terms.const_kind.ConstKind.TheVariants.{Infer as ConstInfer};
ghost use Rattle.relation_terms.specs.declared.terms.const_kind.InferConst.TheVariants.{Var};

use relation_terms::terms::{
    ConstKind, ConstVid, FloatVid, InferConst, InferTy, IntVid, TyKind, TyVid,
};

/// The type variable that a form is, or none.
pub fn ty_vid<X, D, N>(kind: &TyKind<X, D, N>) -> Option<TyVid>
    ensures is { IfSome result (λ v. kind.now ≡ Infer (TyVar v)) }
    ensures is_none { IfNone result ((v : _) → kind.now ≡ Infer (TyVar v) → ⊥) }
{
    match kind {
        TyKind::Infer(InferTy::TyVar(vid)) => Some(*vid),
        _ => None,
    }
}

/// The integer variable that a form is, or none.
pub fn int_vid<X, D, N>(kind: &TyKind<X, D, N>) -> Option<IntVid>
    ensures is { IfSome result (λ v. kind.now ≡ Infer (IntVar v)) }
    ensures is_none { IfNone result ((v : _) → kind.now ≡ Infer (IntVar v) → ⊥) }
{
    match kind {
        TyKind::Infer(InferTy::IntVar(vid)) => Some(*vid),
        _ => None,
    }
}

/// The float variable that a form is, or none.
pub fn float_vid<X, D, N>(kind: &TyKind<X, D, N>) -> Option<FloatVid>
    ensures is { IfSome result (λ v. kind.now ≡ Infer (FloatVar v)) }
    ensures is_none { IfNone result ((v : _) → kind.now ≡ Infer (FloatVar v) → ⊥) }
{
    match kind {
        TyKind::Infer(InferTy::FloatVar(vid)) => Some(*vid),
        _ => None,
    }
}

/// The variable that a form of a constant is, or none.
pub fn const_vid<X, D, N>(kind: &ConstKind<X, D, N>) -> Option<ConstVid>
    ensures is { IfSome result (λ v. kind.now ≡ ConstInfer (Var v)) }
    ensures is_none { IfNone result ((v : _) → kind.now ≡ ConstInfer (Var v) → ⊥) }
{
    match kind {
        ConstKind::Infer(InferConst::Var(vid)) => Some(*vid),
        _ => None,
    }
}
