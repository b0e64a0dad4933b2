//! The smallest question of subtyping: whether one reference is a subtype of another one, where all that is known of
//! regions is that one outlives another.
ghost use Rattle.std.specs.Prelude.{[], ◌∷◌, None, IsTrue, IfOk, IfSome};
ghost use Rattle.term_enums.specs.declared.Variance.TheVariants.{Covariant};
ghost use Rattle.relation_terms.specs.Trees.{known};
ghost use Rattle.relation_terms.specs.Meaning.{Extends};
ghost use Rattle.relation_semantics.specs.Contexts.{KnowsEnv, KnowsTy};
ghost use Rattle.relation_regions.specs.Solving.{IsFactIn};
ghost use Rattle.may_relate.specs.Fitting.{MayBeRelated};
ghost use Rattle.relation_regions.specs.Answers.{Decides};

use crate::all::make_region;
use may_relate::{HasVariables, Unfit, may_relate};
use reference_interner::{RefInterner, SymbolId};
use relation_folds::error::{RelateFault, RelateResult};
use relation_reference::context::RefCtxt;
use relation_regions::{
    RecordedRegions, RegionOutlivesPredicate, Subtyping, SubtypingOf, decide_subtype, is_fact,
};
use relation_semantics::infer_ctxt::TypingMode;
use relation_terms::predicate::OutlivesPredicate;
use relation_terms::terms::{
    Interner, Keys, Mutability, OutOfMemory, ParamEnv, Ty, TyKind, UintTy, Variance,
};
use std::test::Fail;

/// A region outlives another one.
type FactOf<I> = RegionOutlivesPredicate<<I as Keys>::Key>;

/// What is answered, if anything is asked.
type Answer<I> = Option<RelateResult<I, SubtypingOf<I>>>;

// Whether it may be asked of a context: both types may be related in it, and the fact is of its regions.
fn may_ask<C: HasVariables>(
    ctx: &C,
    lhs: &Ty<C::Interner>,
    rhs: &Ty<C::Interner>,
    fact: &FactOf<C::Interner>,
) -> Result<bool, OutOfMemory>
    requires lhs_known { KnowsTy (C.state ctx.now) lhs.now }
    requires rhs_known { KnowsTy (C.state ctx.now) rhs.now }
    requires longer_known { IsTrue (known (((C.state ctx.now).meaning).region fact.now.0)) }
    requires shorter_known { IsTrue (known (((C.state ctx.now).meaning).region fact.now.1)) }
    ensures lhs { let c = C.state ctx.now in
        IfOk result (λ may. IsTrue may → MayBeRelated c.store ((c.meaning).ty lhs.now)) }
    ensures rhs { let c = C.state ctx.now in
        IfOk result (λ may. IsTrue may → MayBeRelated c.store ((c.meaning).ty rhs.now)) }
    ensures fact { IfOk result (λ may. IsTrue may → IsFactIn (C.state ctx.now) fact.now) }
{
    match (may_relate(ctx, lhs), may_relate(ctx, rhs)) {
        (Ok(()), Ok(())) => Ok(is_fact(ctx, fact)),
        (Err(Unfit::Memory), _) | (_, Err(Unfit::Memory)) => Err(OutOfMemory),
        _ => Ok(false),
    }
}

/// Whether one type is a subtype of another one, where all that is known of regions is a fact; the interner has to know
/// them. Nothing is asked where a variable in the types isn't the context's, or the fact is of variables.
pub fn ask_subtype<C: RecordedRegions + HasVariables>(
    ctx: &mut C,
    param_env: ParamEnv<C::Interner>,
    lhs: Ty<C::Interner>,
    rhs: Ty<C::Interner>,
    fact: FactOf<C::Interner>,
) -> Answer<C::Interner>
    requires lawful { (C.state ctx.old).lawful }
    requires env_known { KnowsEnv (C.state ctx.old) param_env }
    requires lhs_known { KnowsTy (C.state ctx.old) lhs }
    requires rhs_known { KnowsTy (C.state ctx.old) rhs }
    requires longer_known { IsTrue (known (((C.state ctx.old).meaning).region fact.0)) }
    requires shorter_known { IsTrue (known (((C.state ctx.old).meaning).region fact.1)) }
    ensures decides { let e = param_env in IfSome result
        (Decides C.state ctx.old ctx.new (fact ∷ []) None (λ m t. m.ty t) e Covariant lhs rhs) }
    ensures lawful { (C.state ctx.new).lawful }
    ensures grown { Extends (C.state ctx.old).meaning (C.state ctx.new).meaning }
{
    let Ok(may) = may_ask(&*ctx, &lhs, &rhs, &fact) else {
        return Some(Err(RelateFault::Memory));
    };
    if !may {
        return None;
    }
    let span = ctx.cx().dummy_span();
    let mut facts = Vec::new(ctx.cx().alloc());
    match facts.push(fact) {
        Ok(()) => {
            let variance = Variance::Covariant;
            Some(decide_subtype(ctx, param_env, lhs, variance, rhs, &facts, span))
        }
        Err(_) => Some(Err(RelateFault::Memory)),
    }
}

/// How a question was answered.
#[derive(Clone, Copy, PartialEq, Eq)]
enum Told {
    Yes,
    Clash,
    Unmet,
    Nothing,
}

// How it was.
fn answered<I: Interner>(answer: &Answer<I>) -> Told {
    match answer {
        Some(Ok(Subtyping::Holds(_))) => Told::Yes,
        Some(Ok(Subtyping::Clash(_))) => Told::Clash,
        Some(Ok(Subtyping::Unmet(_))) => Told::Unmet,
        _ => Told::Nothing,
    }
}

// The type of references to bytes, at the region parameter of an index.
#[tactic(auto, using(relation_terms::proofs::Stays::knows_region))]
fn make_ref<I: Interner>(
    cx: &mut I,
    name: I::Name,
    index: u32,
    mutability: Mutability,
) -> Result<Ty<I>, OutOfMemory>
    ensures grown { Extends (I.meaning cx.old) (I.meaning cx.new) }
    ensures sure { IfOk result (λ k. IsTrue (known ((I.meaning cx.new).ty k))) }
{
    let region = make_region(cx, index, name)?;
    let byte = cx.mk_ty(TyKind::Uint(UintTy::U8))?;
    cx.mk_ty(TyKind::Ref(region, byte, mutability))
}

// Whether `&'a u8`, `'a` by its index, is a subtype of the other reference, where the region of the index 0 outlives that
// of the index 1.
fn told_of_refs<I: Interner + Drop>(
    mut cx: I,
    name: I::Name,
    index: u32,
    other: u32,
    mutability: Mutability,
) -> Result<Told, OutOfMemory> {
    let longer = make_region(&mut cx, 0, name)?;
    let shorter = make_region(&mut cx, 1, name)?;
    let lhs = make_ref(&mut cx, name, index, Mutability::Not)?;
    let rhs = make_ref(&mut cx, name, other, mutability)?;
    let param_env = cx.empty_param_env()?;
    let mut ctx = RefCtxt::new(cx, TypingMode::PostAnalysis, true, 0)?;
    let fact = OutlivesPredicate(longer, shorter);
    let answer = ask_subtype(&mut ctx, param_env, lhs, rhs, fact);
    Ok(answered::<I>(&answer))
}

#[test]
fn subtypes_are_decided(rt: HostRuntime) -> Result<(), Fail> {
    let cx = RefInterner::new(rt.alloc());
    assert!(rt; told_of_refs(cx, SymbolId(0), 0, 1, Mutability::Not)? == Told::Yes);
    let cx = RefInterner::new(rt.alloc());
    assert!(rt; told_of_refs(cx, SymbolId(0), 1, 0, Mutability::Not)? == Told::Unmet);
    let cx = RefInterner::new(rt.alloc());
    assert!(rt; told_of_refs(cx, SymbolId(0), 0, 1, Mutability::Mut)? == Told::Clash);
    Ok(())
}
