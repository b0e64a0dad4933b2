//! A caller who has proved of two types only that they are known asks of each whether it may be related, and then
//! relates them.
ghost use Rattle.relation_semantics.specs.Contexts.{KnowsEnv, KnowsTy};

use may_relate::{HasVariables, Unfit, may_relate};
use reference_interner::RefInterner;
use relation_reference::context::RefCtxt;
use relation_semantics::infer_ctxt::{InferCtxtLike, TypingMode};
use relation_terms::terms::{
    InferTy, Interner, OutOfMemory, ParamEnv, Ty, TyKind, TyVid, UintTy, Variance,
};
use std::test::Fail;
use type_relations::relate::solver_relating::{RelateExt, RelateGoals};

// What relating two types answers, where they may be related; else why not.
fn relate_tested<C: HasVariables>(
    ctx: &mut C,
    param_env: ParamEnv<C::Interner>,
    lhs: Ty<C::Interner>,
    rhs: Ty<C::Interner>,
) -> Result<RelateGoals<C::Interner>, Unfit>
    requires lawful { (C.state ctx.old).lawful }
    requires env_known { KnowsEnv (C.state ctx.old) param_env }
    requires lhs_known { KnowsTy (C.state ctx.old) lhs }
    requires rhs_known { KnowsTy (C.state ctx.old) rhs }
{
    may_relate(&*ctx, &lhs)?;
    may_relate(&*ctx, &rhs)?;
    let span = ctx.cx().dummy_span();
    Ok(ctx.relate(param_env, lhs, Variance::Invariant, rhs, span))
}

// Whether a type variable is related with `u8` in a new context that has one type variable; or why not.
fn relates_variable<I: Interner + Drop>(
    mut cx: I,
    vid: TyVid,
) -> Result<Result<bool, Unfit>, OutOfMemory> {
    let variable = cx.mk_ty(TyKind::Infer(InferTy::TyVar(vid)))?;
    let byte = cx.mk_ty(TyKind::Uint(UintTy::U8))?;
    let param_env = cx.empty_param_env()?;
    let mut ctx = RefCtxt::new(cx, TypingMode::PostAnalysis, true, 10)?;
    ctx.next_ty_infer()?;
    match relate_tested(&mut ctx, param_env, variable, byte) {
        Ok(goals) => Ok(Ok(goals.is_ok())),
        Err(unfit) => Ok(Err(unfit)),
    }
}

#[test]
fn what_may_be_related_is(rt: HostRuntime) -> Result<(), Fail> {
    assert!(rt; relates_variable(RefInterner::new(rt.alloc()), TyVid(0))? == Ok(true));
    let unfit = Err(Unfit::TyVariable(TyVid(1)));
    assert!(rt; relates_variable(RefInterner::new(rt.alloc()), TyVid(1))? == unfit);
    Ok(())
}
