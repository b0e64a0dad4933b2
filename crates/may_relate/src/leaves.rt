//! What ends terms: variables, what binders bind, placeholders and stand-ins.
ghost use Rattle.std.specs.Prelude.{◌<◌, ◌≤◌, IsTrue, IfErr, OnOk, List};
ghost use Rattle.relation_terms.specs.Heads.{Sort};
ghost use Rattle.relation_terms.specs.Trees.{known};
ghost use Rattle.relation_terms.specs.Meaning.{infer_tree};
ghost use Rattle.relation_terms.specs.Parts.{part_tree};
ghost use Rattle.may_relate.specs.Around.{sorts_around};
ghost use Rattle.may_relate.specs.Fitting.{FitsOwn, NamesUniverse, OwnUnfit};

use crate::around::{AroundOf, BoundSort, bound};
use crate::{HasVariables, Unfit};
use relation_semantics::infer_ctxt::InferCtxtLike;
use relation_terms::terms::{
    Const, ConstKind, InferConst, InferTy, Interner, Part, PartOf, Region, RegionKind, Ty, TyKind,
    UniverseIndex,
};

// Nothing, where a universe is no later than the context's current one; else why not.
fn names<C: InferCtxtLike>(ctx: &C, universe: UniverseIndex) -> Result<(), Unfit>
    ensures fits { OnOk result (universe.0 ≤ ((C.state ctx.now).store).universe) }
    ensures why { IfErr result (λ e. NamesUniverse universe.0 e × (((C.state ctx.now).store).universe < universe.0)) }
{
    if universe.0 <= ctx.universe().0 {
        Ok(())
    } else {
        Err(Unfit::LaterUniverse(universe))
    }
}

// Nothing, where a region is none that may not stand there; else why not.
fn own_region<C: HasVariables>(
    ctx: &C,
    cx: &C::Interner,
    region: &Region<C::Interner>,
    around: &AroundOf<C::Interner>,
) -> Result<(), Unfit>
    requires { IsTrue (known ((C.Interner.meaning cx.now).region region.now)) }
    ensures fits { OnOk result (FitsOwn (C.state ctx.now).store (sorts_around around.now)
        ((C.Interner.meaning cx.now).region region.now)) }
    ensures why { IfErr result (OwnUnfit (C.state ctx.now).store (sorts_around around.now)
        ((C.Interner.meaning cx.now).region region.now)) }
{
    match cx.region_kind(region) {
        RegionKind::ReStatic | RegionKind::ReEarlyParam(_) => Ok(()),
        RegionKind::ReBound(depth, region) => bound(around, depth, region.var, BoundSort::Region),
        RegionKind::ReVar(vid) if ctx.has_region_var(vid) => Ok(()),
        RegionKind::ReVar(vid) => Err(Unfit::RegionVariable(vid)),
        RegionKind::RePlaceholder(placeholder) => names(ctx, placeholder.universe),
    }
}

// The same of a variable of types. No binder counts.
fn own_infer<C: HasVariables>(ctx: &C, infer: InferTy) -> Result<(), Unfit>
    ensures fits { (ls : List (List Sort)) → OnOk result (FitsOwn (C.state ctx.now).store ls (infer_tree infer)) }
    ensures why { (ls : List (List Sort)) → IfErr result (OwnUnfit (C.state ctx.now).store ls (infer_tree infer)) }
{
    match infer {
        InferTy::TyVar(vid) if ctx.has_ty_var(vid) => Ok(()),
        InferTy::TyVar(vid) => Err(Unfit::TyVariable(vid)),
        InferTy::IntVar(vid) if ctx.has_int_var(vid) => Ok(()),
        InferTy::IntVar(vid) => Err(Unfit::IntVariable(vid)),
        InferTy::FloatVar(vid) if ctx.has_float_var(vid) => Ok(()),
        InferTy::FloatVar(vid) => Err(Unfit::FloatVariable(vid)),
        InferTy::FreshTy(_) | InferTy::FreshIntTy(_) | InferTy::FreshFloatTy(_) => {
            Err(Unfit::StandIn)
        }
    }
}

// The same of a type.
fn own_ty<C: HasVariables>(
    ctx: &C,
    cx: &C::Interner,
    ty: &Ty<C::Interner>,
    around: &AroundOf<C::Interner>,
) -> Result<(), Unfit>
    requires { IsTrue (known ((C.Interner.meaning cx.now).ty ty.now)) }
    ensures fits { OnOk result (FitsOwn (C.state ctx.now).store (sorts_around around.now)
        ((C.Interner.meaning cx.now).ty ty.now)) }
    ensures why { IfErr result (OwnUnfit (C.state ctx.now).store (sorts_around around.now)
        ((C.Interner.meaning cx.now).ty ty.now)) }
{
    match cx.ty_kind(ty) {
        TyKind::Infer(infer) => own_infer(ctx, infer),
        TyKind::Bound(depth, ty) => bound(around, depth, ty.var, BoundSort::Ty),
        TyKind::Placeholder(placeholder) => names(ctx, placeholder.universe),
        TyKind::Bool
        | TyKind::Char
        | TyKind::Int(_)
        | TyKind::Uint(_)
        | TyKind::Float(_)
        | TyKind::Adt(..)
        | TyKind::Foreign(_)
        | TyKind::Str
        | TyKind::Array(..)
        | TyKind::Pat(..)
        | TyKind::Slice(_)
        | TyKind::RawPtr(..)
        | TyKind::Ref(..)
        | TyKind::FnDef(..)
        | TyKind::FnPtr(..)
        | TyKind::UnsafeBinder(_)
        | TyKind::Dynamic(..)
        | TyKind::Closure(..)
        | TyKind::CoroutineClosure(..)
        | TyKind::Coroutine(..)
        | TyKind::CoroutineWitness(..)
        | TyKind::Never
        | TyKind::Tuple(_)
        | TyKind::Alias(_)
        | TyKind::Param(_)
        | TyKind::Error(_) => Ok(()),
    }
}

// The same of a constant.
fn own_const<C: HasVariables>(
    ctx: &C,
    cx: &C::Interner,
    constant: &Const<C::Interner>,
    around: &AroundOf<C::Interner>,
) -> Result<(), Unfit>
    requires { IsTrue (known ((C.Interner.meaning cx.now).const_ constant.now)) }
    ensures fits { OnOk result (FitsOwn (C.state ctx.now).store (sorts_around around.now)
        ((C.Interner.meaning cx.now).const_ constant.now)) }
    ensures why { IfErr result (OwnUnfit (C.state ctx.now).store (sorts_around around.now)
        ((C.Interner.meaning cx.now).const_ constant.now)) }
{
    match cx.const_kind(constant) {
        ConstKind::Infer(InferConst::Var(vid)) if ctx.has_const_var(vid) => Ok(()),
        ConstKind::Infer(InferConst::Var(vid)) => Err(Unfit::ConstVariable(vid)),
        ConstKind::Infer(InferConst::Fresh(_)) => Err(Unfit::StandIn),
        ConstKind::Bound(depth, constant) => bound(around, depth, constant.var, BoundSort::Const),
        ConstKind::Placeholder(placeholder) => names(ctx, placeholder.universe),
        ConstKind::Param(_)
        | ConstKind::Unevaluated(_)
        | ConstKind::Value(..)
        | ConstKind::Error(_)
        | ConstKind::Expr(..) => Ok(()),
    }
}

/// Nothing, where a term without its parts may stand there; else why not. Of all that has parts nothing is asked.
pub fn own<C: HasVariables>(
    ctx: &C,
    cx: &C::Interner,
    part: &PartOf<C::Interner>,
    around: &AroundOf<C::Interner>,
) -> Result<(), Unfit>
    requires { IsTrue (known (part_tree (C.Interner.meaning cx.now) part.now)) }
    ensures fits { OnOk result (FitsOwn (C.state ctx.now).store (sorts_around around.now)
        (part_tree (C.Interner.meaning cx.now) part.now)) }
    ensures why { IfErr result (OwnUnfit (C.state ctx.now).store (sorts_around around.now)
        (part_tree (C.Interner.meaning cx.now) part.now)) }
{
    match part {
        Part::Region(region) => own_region(ctx, cx, region, around),
        Part::Ty(ty) => own_ty(ctx, cx, ty, around),
        Part::Const(constant) => own_const(ctx, cx, constant, around),
        Part::ValTree(_) => Ok(()),
        Part::Pat(_) => Ok(()),
        Part::ValueType(_) | Part::Binder(..) | Part::Signature(_) => Ok(()),
        Part::Inputs(_) | Part::Existential(_) | Part::Object(_) => Ok(()),
    }
}
