//! The overlap of two headers.
ghost use Rattle.std.specs.Prelude.{IsTrue, IsFalse, false};
ghost use Rattle.relation_terms.specs.Trees.{known};
ghost use Rattle.relation_terms.specs.Meaning.{Extends};
ghost use Rattle.fast_reject.specs.Instances.{NoCommonInstance};
ghost use Rattle.relation_semantics.specs.Contexts.{KnowsEnv};
ghost use Rattle.relation_semantics.specs.Steps.{IsLater};
ghost use Rattle.relation_semantics.specs.Stores.{IsSound};
ghost use Rattle.relation_coherence.specs.Headers.{KnowsHeader, TakesHeader, HasHeader, AreOfOneLength};
ghost use Rattle.relation_coherence.specs.Headers.{IsClosedHeader, AgreeOnNames};
ghost use Rattle.relation_coherence.specs.Answers.{TellsApart, TellsApartErased, CoversBoth, MeetsInCommon};
ghost use Rattle.relation_coherence.specs.Answers.{IsResolved, SpendsAll, KnowsOverlap};

pub use crate::answer::{HeaderOf, Overlap, OverlapOf, WhyApart};
use crate::opening::open_both;
use fast_reject::DeepRejectCtxt;
use relation_folds::error::{RelateFault, RelateResult};
use relation_laws::laws;
use relation_semantics::infer_ctxt::InferCtxtLike;
use relation_terms::terms::{GenericArgs, ParamEnv, Span, Variance};
use type_relations::relate::solver_relating::RelateExt;

/// Whether two headers over as many arguments overlap: whether some values for what they bind make them one, as two
/// impls of one trait must not. It is what the compiler's `overlapping_impls` asks of headers alone.
///
/// The interner has to know both and the environment; no inference variable stands in either; their binders bind by
/// their lists; and parameters that are not bound have one name for one index in both.
///
/// After `Apart` nothing is an instance of both. Where a quick test said so, or both are first-order, as the record is,
/// no instances of the two are one up to erasure either, as regions are not compared by it. After `Meets` whatever is
/// an instance of both is a value of the answered header, and if all is first-order each value of it is an instance of
/// both, up to erasure: it is the most general overlap. No variable stands in it that is bound. An alias counts as a
/// term of its own, unless relating leaves it to a goal.
///
/// # Errors
/// `Budget` only where no instantiation is left: not of first-order headers in a first-order record, if the unresolved
/// variables of types and constants are of the current universe and the budget is as large as their number and that of
/// the types and constants which both headers bind. `Memory` where a growth was refused. Variables may have been made
/// then, and more recorded; all that was recorded stands, as it does after each answer.
pub fn overlap<C: InferCtxtLike>(
    ctx: &mut C,
    param_env: ParamEnv<C::Interner>,
    left: HeaderOf<C::Interner>,
    right: HeaderOf<C::Interner>,
    span: Span<C::Interner>,
) -> RelateResult<C::Interner, OverlapOf<C::Interner>>
    requires lawful { (C.state ctx.old).lawful }
    requires env_known { KnowsEnv (C.state ctx.old) param_env }
    requires fits { AreOfOneLength (C.state ctx.old) left right }
    requires left_known { KnowsHeader (C.state ctx.old) left }
    requires right_known { KnowsHeader (C.state ctx.old) right }
    requires left_taken { TakesHeader (C.state ctx.old) left }
    requires right_taken { TakesHeader (C.state ctx.old) right }
    requires left_in { HasHeader (C.state ctx.old) left }
    requires right_in { HasHeader (C.state ctx.old) right }
    requires left_closed { IsClosedHeader (C.state ctx.old) left }
    requires right_closed { IsClosedHeader (C.state ctx.old) right }
    requires names { AgreeOnNames (C.state ctx.old) left right }
    ensures apart { TellsApart (C.state ctx.old) (C.state ctx.new) left right result }
    ensures apart_erased { TellsApartErased (C.state ctx.old) (C.state ctx.new) left right result }
    ensures covers { CoversBoth (C.state ctx.old) (C.state ctx.new) left right result }
    ensures common { MeetsInCommon (C.state ctx.old) (C.state ctx.new) left right result }
    ensures resolved { IsResolved (C.state ctx.old) (C.state ctx.new) left right result }
    ensures bounded { SpendsAll (C.state ctx.old) (C.state ctx.new) left right result }
    ensures known { KnowsOverlap (C.state ctx.new).meaning result }
    ensures later { IsLater (C.state ctx.old).store (C.state ctx.new).store }
    ensures sound { IsSound (C.state ctx.new).store }
    ensures lawful { (C.state ctx.new).lawful }
    ensures grown { Extends (C.state ctx.old).meaning (C.state ctx.new).meaning }
{
    laws::stores();
    laws::assigning();
    laws::opening();
    if !bodies_may_unify(&*ctx, &left.value, &right.value) {
        return Ok(Overlap::Apart(WhyApart::ByForm));
    }
    let (lhs, rhs) = open_both(ctx, left, right)?;
    match ctx.relate(param_env, lhs, Variance::Invariant, rhs, span) {
        Ok(goals) => {
            let header = ctx.resolve_vars_if_possible(&lhs)?;
            Ok(Overlap::Meets { header, goals })
        }
        Err(RelateFault::Unrelated(why)) => Ok(Overlap::Apart(WhyApart::ByRelating(why))),
        Err(RelateFault::Budget) => Err(RelateFault::Budget),
        Err(RelateFault::Memory) => Err(RelateFault::Memory),
    }
}

// Whether the bodies of two headers may be one, as far as a quick test tells. Parameters stand for themselves in both.
fn bodies_may_unify<C: InferCtxtLike>(
    ctx: &C,
    left: &GenericArgs<C::Interner>,
    right: &GenericArgs<C::Interner>,
) -> bool
    requires left_known { IsTrue (known ((C.state ctx.now).meaning.args left.now)) }
    requires right_known { IsTrue (known ((C.state ctx.now).meaning.args right.now)) }
    ensures { let m = (C.state ctx.now).meaning in
        IsFalse result → NoCommonInstance false false (m.args left.now) (m.args right.now) }
{
    let cx = ctx.cx();
    let test = DeepRejectCtxt::relate_rigid_rigid(cx);
    test.args_may_unify(cx, left, right)
}
