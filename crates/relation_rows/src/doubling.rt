//! What is counted of a type that is doubled again and again, which no question asks.
ghost use Rattle.std.specs.Prelude.{IsTrue, IfOk};
ghost use Rattle.relation_terms.specs.Trees.{known};
ghost use Rattle.reference_interner.specs.Adding.{meaning_in};

use reference_interner::RefInterner;
use relation_terms::terms::{GenericArgKind, Interner, OutOfMemory, Ty, TyKind, UintTy};
use std::alloc::Global;
use text_asking::sized_keys::SizedKeys;

// The tuple of a type and itself.
fn doubled(cx: &mut RefInterner, ty: Ty<RefInterner>) -> Result<Ty<RefInterner>, OutOfMemory>
    requires { IsTrue (known ((meaning_in cx.old).ty ty)) }
    ensures { IfOk result (λ t. IsTrue (known ((meaning_in cx.new).ty t))) }
{
    let list = cx.mk_type_list(&[ty, ty])?;
    cx.mk_ty(TyKind::Tuple(list))
}

// `u8`, doubled so often.
fn tower(cx: &mut RefInterner, doublings: usize) -> Result<Ty<RefInterner>, OutOfMemory>
    ensures { IfOk result (λ t. IsTrue (known ((meaning_in cx.new).ty t))) }
{
    let mut ty = cx.mk_ty(TyKind::Uint(UintTy::U8))?;
    for _ in 0..doublings {
        ty = doubled(cx, ty)?;
    }
    Ok(ty)
}

// How many terms a walk of `u8` yields that was doubled so often, and how many nodes are added where it is made again.
fn count_in(cx: &mut RefInterner, doublings: usize) -> Result<(usize, usize), OutOfMemory> {
    let ty = tower(cx, doublings)?;
    let yielded = cx.walk(&GenericArgKind::Ty(ty), &[])?.len();
    let nodes = cx.nodes();
    let _ = tower(cx, doublings)?;
    Ok((yielded, cx.nodes().saturating_sub(nodes)))
}

/// The same in a new interner.
///
/// # Errors
/// `OutOfMemory` where a growth was refused.
pub fn count_terms_and_nodes(
    alloc: Global,
    doublings: usize,
) -> Result<(usize, usize), OutOfMemory> {
    let mut cx = RefInterner::new(alloc);
    count_in(&mut cx, doublings)
}
