//! The smallest question of coherence: what two impls have in common, one for all slices and one for slices of bytes.
ghost use Rattle.std.specs.Prelude.{IfOk};
ghost use Rattle.relation_terms.specs.Meaning.{Extends, bound_kinds};
ghost use Rattle.relation_semantics.specs.Contexts.{KnowsEnv};
ghost use Rattle.examples.specs.Headers.{IsPlain, IsPlainHeader};

use reference_interner::{RefInterner, SymbolId};
use relation_coherence::overlap::{HeaderOf, Overlap, overlap};
use relation_folds::error::RelateResult;
use relation_reference::context::RefCtxt;
use relation_semantics::infer_ctxt::{InferCtxtLike, TypingMode};
use relation_terms::terms::{
    Binder, BoundTy, BoundVar, BoundVariable, BoundVariableKind, DebruijnIndex, GenericArgKind,
    GenericArgs, Interner, OutOfMemory, ParamEnv, Ty, TyKind, UintTy,
};
use std::test::Fail;

// The header of an impl for a type, generic over what is bound.
fn make_header<I: Interner>(
    cx: &mut I,
    bound: &[BoundVariable<I>],
    ty: Ty<I>,
) -> Result<HeaderOf<I>, OutOfMemory>
    requires { IsPlain (bound_kinds (I.meaning cx.old) bound.now) ((I.meaning cx.old).ty ty) }
    ensures grown { Extends (I.meaning cx.old) (I.meaning cx.new) }
    ensures plain { IfOk result (λ h. IsPlainHeader (I.meaning cx.new) h) }
{
    let bound_vars = cx.mk_bound_vars(bound)?;
    let mut args = Vec::new(cx.alloc());
    args.push(GenericArgKind::Ty(ty))?;
    let value = cx.mk_args(&args)?;
    Ok(Binder { value, bound_vars })
}

// The header of `impl<T> Tr for [T]`.
fn header_of_slices<I: Interner>(cx: &mut I, name: I::Name) -> Result<HeaderOf<I>, OutOfMemory>
    ensures grown { Extends (I.meaning cx.old) (I.meaning cx.new) }
    ensures plain { IfOk result (λ h. IsPlainHeader (I.meaning cx.new) h) }
{
    let var = BoundVar(0);
    let param = cx.mk_ty(TyKind::Bound(DebruijnIndex(0), BoundTy { var, name }))?;
    let slice = cx.mk_ty(TyKind::Slice(param))?;
    let mut bound = Vec::new(cx.alloc());
    bound.push(BoundVariableKind::Ty(name))?;
    make_header(cx, &bound, slice)
}

// The header of `impl Tr for [u8]`.
fn header_of_bytes<I: Interner>(cx: &mut I) -> Result<HeaderOf<I>, OutOfMemory>
    ensures grown { Extends (I.meaning cx.old) (I.meaning cx.new) }
    ensures plain { IfOk result (λ h. IsPlainHeader (I.meaning cx.new) h) }
{
    let byte = cx.mk_ty(TyKind::Uint(UintTy::U8))?;
    let slice = cx.mk_ty(TyKind::Slice(byte))?;
    let bound = Vec::new(cx.alloc());
    make_header(cx, &bound, slice)
}

// The most general header that two impls have in common, if they overlap.
fn common_header<C: InferCtxtLike>(
    ctx: &mut C,
    param_env: ParamEnv<C::Interner>,
    left: HeaderOf<C::Interner>,
    right: HeaderOf<C::Interner>,
) -> RelateResult<C::Interner, Option<GenericArgs<C::Interner>>>
    requires lawful { (C.state ctx.old).lawful }
    requires env_known { KnowsEnv (C.state ctx.old) param_env }
    requires left { IsPlainHeader (C.state ctx.old).meaning left }
    requires right { IsPlainHeader (C.state ctx.old).meaning right }
{
    let span = ctx.cx().dummy_span();
    let answer = overlap(ctx, param_env, left, right, span)?;
    Ok(match &answer {
        Overlap::Apart(_) => None,
        Overlap::Meets { header, .. } => Some(*header),
    })
}

// Whether an impl for all slices and one for slices of bytes have just these in common.
fn slices_overlap<I: Interner + Drop>(mut cx: I, name: I::Name) -> RelateResult<I, bool> {
    let slices = header_of_slices(&mut cx, name)?;
    let bytes = header_of_bytes(&mut cx)?;
    let param_env = cx.empty_param_env()?;
    let mut ctx = RefCtxt::new(cx, TypingMode::Coherence, true, 10)?;
    let common = common_header(&mut ctx, param_env, slices, bytes)?;
    Ok(common == Some(bytes.value))
}

#[test]
fn impls_overlap(rt: HostRuntime) -> Result<(), Fail> {
    assert!(rt; slices_overlap(RefInterner::new(rt.alloc()), SymbolId(0)) == Ok(true));
    Ok(())
}
