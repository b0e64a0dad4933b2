//! Terms put for what a binder binds, under a further binder too.
ghost use Rattle.std.specs.Prelude.{IsTrue, IfOk};
ghost use Rattle.relation_terms.specs.Trees.{known};
ghost use Rattle.relation_terms.specs.Meaning.{Extends};

use relation_terms::terms::{
    Binder, BoundTy, BoundVar, DebruijnIndex, GenericArgKind, Interner, OutOfMemory, Ty, TyKind,
};
use relation_tools::fold::instantiate_bound_vars;

// The type that the first place of a binder so many steps up binds.
fn bound<I: Interner>(cx: &mut I, name: I::Name, index: u64) -> Result<Ty<I>, OutOfMemory>
    ensures grown { Extends (I.meaning cx.old) (I.meaning cx.new) }
    ensures sure { IfOk result (λ k. IsTrue (known ((I.meaning cx.new).ty k))) }
{
    let var = BoundVar(0);
    cx.mk_ty(TyKind::Bound(DebruijnIndex(index), BoundTy { var, name }))
}

// A type under a binder without variables.
fn under_binder<I: Interner>(cx: &mut I, value: Ty<I>) -> Result<Ty<I>, OutOfMemory>
    requires { IsTrue (known ((I.meaning cx.old).ty value)) }
    ensures grown { Extends (I.meaning cx.old) (I.meaning cx.new) }
    ensures sure { IfOk result (λ k. IsTrue (known ((I.meaning cx.new).ty k))) }
{
    let variables = Vec::new(cx.alloc());
    let bound_vars = cx.mk_bound_vars(&variables)?;
    cx.mk_ty(TyKind::UnsafeBinder(Binder { value, bound_vars }))
}

/// Whether what is put under a further binder is still bound by the same one.
#[tactic(auto, using(relation_terms::proofs::Stays::knows_ty))]
pub fn moves_what_it_puts<I: Interner>(cx: &mut I, name: I::Name) -> Result<bool, OutOfMemory> {
    let outer = bound(cx, name, 1)?;
    let body = under_binder(cx, outer)?;
    let by = bound(cx, name, 5)?;
    let mut args = Vec::new(cx.alloc());
    args.push(GenericArgKind::Ty(by))?;
    let opened = instantiate_bound_vars(cx, &body, &args)?;
    let moved = bound(cx, name, 6)?;
    Ok(opened == under_binder(cx, moved)?)
}
