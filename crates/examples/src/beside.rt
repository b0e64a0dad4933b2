//! The smallest question of coherence with bounds: whether two impls may stand beside each other, one for vectors of what
//! is of a trait and one for vectors of bytes.
ghost use Rattle.std.specs.Prelude.{◌≡◌, [], ◌∷◌, All, Contains, IfOk, IfSome};
ghost use Rattle.relation_semantics.specs.Contexts.{KnowsEnv};
ghost use Rattle.relation_proving.specs.RuleTerms.{KnowsRule};
ghost use Rattle.relation_impls.specs.Answers.{TellsApart, TellsMeeting};

use crate::proving::{
    Inner, Items, add_items, make_given, make_had, make_impl, make_inner, make_ranked, make_vec,
};
use kept_records::KeepsRecord;
use may_relate::HasVariables;
use reference_interner::{RefInterner, SymbolId};
use relation_folds::error::{RelateFault, RelateResult};
use relation_impls::impls::{Impls, WhyApart, impls_overlap};
use relation_proving::checking::rules_may_be_used;
use relation_proving::opening::RuleOf;
use relation_reference::context::RefCtxt;
use relation_semantics::infer_ctxt::{InferCtxtLike, TypingMode};
use relation_terms::terms::{Interner, OutOfMemory, ParamEnv};
use std::alloc::Global;
use std::test::Fail;

/// What is answered, if anything is asked.
type Answer<I> = Option<RelateResult<I, Impls>>;

/// Whether two of some impls overlap, where these are all that there are; the interner has to know them. Nothing is
/// asked where one of them may not be used.
pub fn ask_two<C: KeepsRecord + HasVariables>(
    ctx: &mut C,
    impls: &[RuleOf<C::Interner>],
    param_env: ParamEnv<C::Interner>,
    left: RuleOf<C::Interner>,
    right: RuleOf<C::Interner>,
    depth: usize,
) -> Answer<C::Interner>
    requires lawful { (C.state ctx.old).lawful }
    requires env_known { KnowsEnv (C.state ctx.old) param_env }
    requires impls_known { All (KnowsRule (C.state ctx.old)) impls.now }
    requires left { Contains impls.now left }
    requires right { Contains impls.now right }
    ensures apart { IfSome result (λ r. IfOk r (TellsApart (C.state ctx.old) impls.now left right)) }
    ensures meets { IfSome result (λ r. IfOk r (TellsMeeting (C.state ctx.old) impls.now left right)) }
{
    let Ok(may) = rules_may_be_used(&*ctx, impls) else {
        return Some(Err(RelateFault::Memory));
    };
    if !may {
        return None;
    }
    let span = ctx.cx().dummy_span();
    Some(impls_overlap(ctx, impls, param_env, left, right, depth, span))
}

// A list of three.
fn three<T: Copy>(alloc: Global, first: T, second: T, third: T) -> Result<Vec<T>, OutOfMemory>
    ensures { IfOk result (λ v. v.items ≡ first ∷ second ∷ third ∷ []) }
{
    let mut list = Vec::new(alloc);
    list.push(first)?;
    list.push(second)?;
    list.push(third)?;
    Ok(list)
}

// Whether `impl<T> Ranked for Vec<T> where T: Ranked` and `impl Ranked for Vec<u8>` overlap, where beside them a type has
// an impl, of which the context knows nothing else.
fn told_of_vecs<I: Interner + Drop>(
    mut cx: I,
    items: Items<I::Id>,
    name: I::Name,
    inner: Inner,
) -> RelateResult<I, Option<Impls>> {
    let for_all = make_impl(&mut cx, items.vec, items.ranked, name)?;
    let byte = make_inner(&mut cx, name, Inner::Byte)?;
    let over = make_vec(&mut cx, items.vec, byte)?;
    let ranked = make_ranked(&mut cx, items.ranked, over)?;
    let for_bytes = make_given(&mut cx, ranked)?;
    let had = make_had(&mut cx, items.ranked, name, inner)?;
    let impls = three(cx.alloc(), for_all, for_bytes, had)?;
    let param_env = cx.empty_param_env()?;
    let mut ctx = RefCtxt::new(cx, TypingMode::PostAnalysis, true, 100)?;
    match ask_two(&mut ctx, &impls, param_env, for_all, for_bytes, 3) {
        Some(answer) => Ok(Some(answer?)),
        None => Ok(None),
    }
}

// The same over the plain interner.
fn told_of(alloc: Global, inner: Inner) -> RelateResult<RefInterner, Option<Impls>> {
    let mut cx = RefInterner::new(alloc);
    let items = add_items(&mut cx, alloc)?;
    told_of_vecs(cx, items, SymbolId(0), inner)
}

#[test]
fn impls_stand_beside_each_other_or_not(rt: HostRuntime) -> Result<(), Fail> {
    let alloc = rt.alloc();
    let apart = Impls::Apart(WhyApart::ByBound(0));
    assert!(rt; told_of(alloc, Inner::Param) == Ok(Some(apart)));
    assert!(rt; told_of(alloc, Inner::Byte) == Ok(Some(Impls::Meet)));
    Ok(())
}
