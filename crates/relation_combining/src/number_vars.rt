//! Integer and float variables of a context, met with types.
ghost use Rattle.std.specs.Prelude.{◌≡◌, ◌≢◌, IsTrue, IsFalse, IfSome, IfNone};
ghost use Rattle.relation_terms.specs.declared.terms.ty_kind.TyKind.TheVariants.{Infer, Int, Uint, Float};
ghost use Rattle.relation_terms.specs.declared.terms.ty_kind.InferTy.TheVariants.{IntVar, FloatVar};
ghost use Rattle.relation_folds.specs.declared.error.TypeError.TheVariants.{Sorts};
ghost use Rattle.relation_folds.specs.declared.error.RelateFault.TheVariants.{Unrelated};
ghost use Rattle.relation_semantics.specs.Contexts.{KnowsTy};
ghost use Rattle.relation_semantics.specs.ContextCalls.{IsUnresolved};
ghost use Rattle.relation_combining.specs.NumberVars.{number_kind, number_of, number_tree, infer_of, IsNoNumberVar};
ghost use Rattle.relation_combining.specs.NumberVars.{IsIntValue, IsFloatValue, FitsNumber, EquatesNumbers};
ghost use Rattle.relation_combining.specs.NumberVars.{BindsNumberTo};

use relation_folds::error::{ExpectedFound, RelateFault, RelateFaultOf, TypeError};
use relation_semantics::infer_ctxt::InferCtxtLike;
use relation_terms::terms::{
    FloatVarValue, FloatVid, InferTy, IntVarValue, IntVid, Interner, Ty, TyKind,
};

// An integer variable, or a float variable.
#[derive(Clone, Copy)]
pub(crate) enum NumberVid {
    Int(IntVid),
    Float(FloatVid),
}

// The number variable that a form is, or none.
fn number_vid<X, D, N>(kind: &TyKind<X, D, N>) -> Option<NumberVid>
    ensures is { IfSome result (λ v. kind.now ≡ Infer (infer_of v)) }
    ensures no_int { IfNone result ((v : _) → kind.now ≡ Infer (IntVar v) → ⊥) }
    ensures no_float { IfNone result ((v : _) → kind.now ≡ Infer (FloatVar v) → ⊥) }
{
    match kind {
        TyKind::Infer(InferTy::IntVar(vid)) => Some(NumberVid::Int(*vid)),
        TyKind::Infer(InferTy::FloatVar(vid)) => Some(NumberVid::Float(*vid)),
        _ => None,
    }
}

// The value that a form gives integer variables, or none.
fn int_value<X, D, N>(kind: &TyKind<X, D, N>) -> Option<IntVarValue>
    ensures is { IfSome result (λ v. IsIntValue kind.now v) }
    ensures no_int { IfNone result ((w : _) → kind.now ≡ Int w → ⊥) }
    ensures no_uint { IfNone result ((w : _) → kind.now ≡ Uint w → ⊥) }
{
    match kind {
        TyKind::Int(width) => Some(IntVarValue::IntType(*width)),
        TyKind::Uint(width) => Some(IntVarValue::UintType(*width)),
        _ => None,
    }
}

// The value that a form gives float variables, or none.
fn float_value<X, D, N>(kind: &TyKind<X, D, N>) -> Option<FloatVarValue>
    ensures is { IfSome result (λ v. IsFloatValue kind.now v) }
    ensures no_float { IfNone result ((w : _) → kind.now ≡ Float w → ⊥) }
{
    match kind {
        TyKind::Float(width) => Some(FloatVarValue::Known(*width)),
        _ => None,
    }
}

// The number variable that a type is, or none.
pub(crate) fn number_var<Infcx: InferCtxtLike>(
    infcx: &Infcx,
    ty: &Ty<Infcx::Interner>,
) -> Option<NumberVid>
    requires { KnowsTy (Infcx.state infcx.now) ty.now }
    ensures is { let m = (Infcx.state infcx.now).meaning in IfSome result (λ v. m.ty ty.now ≡ number_tree v) }
    ensures is_none { let m = (Infcx.state infcx.now).meaning in IfNone result (IsNoNumberVar (m.ty ty.now)) }
{
    number_vid(&infcx.cx().ty_kind(ty))
}

// Makes two roots of number variables one, if they are of one kind, and answers whether they are.
pub(crate) fn equate_numbers<Infcx: InferCtxtLike>(
    infcx: &mut Infcx,
    a: NumberVid,
    b: NumberVid,
) -> bool
    requires lawful { (Infcx.state infcx.old).lawful }
    requires a_unresolved { IsUnresolved (Infcx.state infcx.old) (number_kind a) (number_of a) }
    requires b_unresolved { IsUnresolved (Infcx.state infcx.old) (number_kind b) (number_of b) }
    ensures one_kind { IsTrue result → number_kind b ≡ number_kind a }
    ensures equates { IsTrue result → EquatesNumbers (Infcx.state infcx.old) (Infcx.state infcx.new) a b }
    ensures unlike { IsFalse result → number_kind b ≢ number_kind a }
    ensures refused { IsFalse result → infcx.new ≡ infcx.old }
{
    match a {
        NumberVid::Int(x) => {
            let NumberVid::Int(y) = b else {
                return false;
            };
            infcx.equate_int_vids_raw(x, y);
            true
        }
        NumberVid::Float(x) => {
            let NumberVid::Float(y) = b else {
                return false;
            };
            infcx.equate_float_vids_raw(x, y);
            true
        }
    }
}

// Binds the root of a number variable to a type, if that is one of its kind, and answers whether it is. It takes
// nothing from the budget.
pub(crate) fn bind_number<Infcx: InferCtxtLike>(
    infcx: &mut Infcx,
    var: NumberVid,
    ty: &Ty<Infcx::Interner>,
) -> bool
    requires lawful { (Infcx.state infcx.old).lawful }
    requires unresolved { IsUnresolved (Infcx.state infcx.old) (number_kind var) (number_of var) }
    requires ty_known { KnowsTy (Infcx.state infcx.old) ty.now }
    ensures binds { IsTrue result → BindsNumberTo (Infcx.state infcx.old) (Infcx.state infcx.new) var ty.now }
    ensures unlike { IsFalse result → FitsNumber (Infcx.state infcx.old) var ty.now → ⊥ }
    ensures refused { IsFalse result → infcx.new ≡ infcx.old }
{
    let kind = infcx.cx().ty_kind(ty);
    match var {
        NumberVid::Int(x) => {
            let Some(value) = int_value(&kind) else {
                return false;
            };
            infcx.instantiate_int_var_raw(x, value);
            true
        }
        NumberVid::Float(x) => {
            let Some(value) = float_value(&kind) else {
                return false;
            };
            infcx.instantiate_float_var_raw(x, value);
            true
        }
    }
}

// Two types of which one is a number variable that can't be bound to the other.
pub(crate) fn unlike_numbers<I: Interner>(a: &Ty<I>, b: &Ty<I>) -> RelateFaultOf<I>
    ensures { result ≡ Unrelated (Sorts (record { expected = a.now; found = b.now })) }
{
    RelateFault::Unrelated(TypeError::Sorts(ExpectedFound::new(*a, *b)))
}
