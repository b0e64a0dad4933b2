//! Whether a goal fits what a rule gives.
ghost use Rattle.std.specs.Prelude.{◌≡◌, IfOk, []};
ghost use Rattle.term_enums.specs.declared.Variance.TheVariants.{Invariant};
ghost use Rattle.relation_terms.specs.declared.predicate.kinds.ClauseKind.TheVariants.{Projection};
ghost use Rattle.relation_terms.specs.Meaning.{Extends};
ghost use Rattle.relation_terms.specs.Predicates.{clause_kind_tree};
ghost use Rattle.relation_terms.specs.Trees.{bind};
ghost use Rattle.relation_semantics.specs.Contexts.{KnowsEnv};
ghost use Rattle.relation_semantics.specs.Steps.{IsLater};
ghost use Rattle.type_relations.specs.Contract.{CanRelate};
ghost use Rattle.relation_proving.specs.Bodies.{AreOfOneItem};
ghost use Rattle.relation_proving.specs.Candidates.{MayFit, MayAsk, TellsClauses};
ghost use Rattle.relation_proving.specs.Fitting.{fitting_after, TellsFit};

use crate::comparing::{Bodies, compare};
use crate::reading::ProjectionPredicateOf;
use relation_folds::error::{RelateFault, RelateResult};
use relation_recursion::relatable::Relate;
use relation_semantics::infer_ctxt::InferCtxtLike;
use relation_terms::terms::{Clause, Interner, ParamEnv, Span, Variance};
use type_relations::relate::solver_relating::{RelateExt, RelateGoals};

/// What became of a goal and what a rule gives.
#[derive(Clone, Copy, PartialEq, Eq)]
pub enum Fitting {
    /// They were made one, by what is recorded.
    Fits,
    /// Nothing makes them one.
    Apart,
    /// They are one where goals hold that relating left.
    Left,
}

// What relating says of the two.
fn fitting_of<I: Interner>(related: RelateGoals<I>) -> RelateResult<I, Fitting>
    ensures { result ≡ fitting_after related }
{
    match related {
        Ok(goals) => Ok(if goals.is_empty() {
            Fitting::Fits
        } else {
            Fitting::Left
        }),
        Err(RelateFault::Unrelated(_)) => Ok(Fitting::Apart),
        Err(RelateFault::Budget) => Err(RelateFault::Budget),
        Err(RelateFault::Memory) => Err(RelateFault::Memory),
    }
}

/// Relates a goal and what a rule gives, once that is opened, at `Invariant`.
///
/// After `Fits` what satisfies what is recorded relates the two, and what made them one extends to such a one; after
/// `Apart` nothing made them one. Of first-order ones in a first-order record it is never `Left`; after `Fits` just the
/// solutions are left that unify the two, up to erasure, and after `Apart` none unified them.
///
/// # Errors
/// `Budget` where no instantiation is left, and `Memory` where a growth was refused. All that was recorded stands.
pub fn fit<C: InferCtxtLike, T: Relate<C::Interner>>(
    ctx: &mut C,
    param_env: ParamEnv<C::Interner>,
    goal: T,
    given: T,
    span: Span<C::Interner>,
) -> RelateResult<C::Interner, Fitting>
    requires can { CanRelate (C.state ctx.old) T.over T.tree T.fits param_env Invariant goal given }
    ensures tells { IfOk result (TellsFit (C.state ctx.old) (C.state ctx.new) T.over T.tree param_env goal given) }
    ensures later { IsLater (C.state ctx.old).store (C.state ctx.new).store }
    ensures lawful { (C.state ctx.new).lawful }
    ensures grown { Extends (C.state ctx.old).meaning (C.state ctx.new).meaning }
{
    fitting_of::<C::Interner>(ctx.relate(param_env, goal, Variance::Invariant, given, span))
}

// Relates what two clauses say of one item: their aliases' arguments, then what these come to. An alias itself may be
// related with anything that it comes to.
fn fit_projection<C: InferCtxtLike>(
    ctx: &mut C,
    param_env: ParamEnv<C::Interner>,
    goal: ProjectionPredicateOf<C::Interner>,
    given: ProjectionPredicateOf<C::Interner>,
    span: Span<C::Interner>,
) -> RelateResult<C::Interner, Fitting>
    requires lawful { (C.state ctx.old).lawful }
    requires env_known { KnowsEnv (C.state ctx.old) param_env }
    requires one_item { AreOfOneItem (C.state ctx.old).meaning goal given }
    requires goal { let c = C.state ctx.old in MayFit c (bind [] (clause_kind_tree c.meaning (Projection goal))) }
    requires given { let c = C.state ctx.old in MayFit c (bind [] (clause_kind_tree c.meaning (Projection given))) }
    ensures tells { let c = C.state ctx.old in IfOk result (TellsClauses c (C.state ctx.new) param_env
        (bind [] (clause_kind_tree c.meaning (Projection goal)))
        (bind [] (clause_kind_tree c.meaning (Projection given)))) }
    ensures later { IsLater (C.state ctx.old).store (C.state ctx.new).store }
    ensures lawful { (C.state ctx.new).lawful }
    ensures grown { Extends (C.state ctx.old).meaning (C.state ctx.new).meaning }
{
    let (list, others) = (goal.projection_term.args, given.projection_term.args);
    let fitting = fit(ctx, param_env, list, others, span)?;
    match fitting {
        Fitting::Fits => fit(ctx, param_env, goal.term, given.term, span),
        Fitting::Apart => Ok(Fitting::Apart),
        Fitting::Left => Ok(Fitting::Left),
    }
}

/// Makes a goal and what a rule gives, once that is opened, say one thing: both of one trait, or of one item. Others are
/// told apart, or it is `Left`.
///
/// # Errors
/// `Budget` where no instantiation is left, and `Memory` where a growth was refused. All that was recorded stands.
pub(crate) fn fit_clauses<C: InferCtxtLike>(
    ctx: &mut C,
    param_env: ParamEnv<C::Interner>,
    goal: &Clause<C::Interner>,
    given: &Clause<C::Interner>,
    span: Span<C::Interner>,
) -> RelateResult<C::Interner, Fitting>
    requires lawful { (C.state ctx.old).lawful }
    requires env_known { KnowsEnv (C.state ctx.old) param_env }
    requires goal { MayAsk (C.state ctx.old) goal.now }
    requires given { MayAsk (C.state ctx.old) given.now }
    ensures tells { let c = C.state ctx.old in IfOk result (TellsClauses c (C.state ctx.new) param_env
        ((c.meaning).clause goal.now) ((c.meaning).clause given.now)) }
    ensures later { IsLater (C.state ctx.old).store (C.state ctx.new).store }
    ensures lawful { (C.state ctx.new).lawful }
    ensures grown { Extends (C.state ctx.old).meaning (C.state ctx.new).meaning }
{
    match compare(ctx.cx(), goal, given) {
        Bodies::OfTrait(goal, given) => fit(ctx, param_env, goal, given, span),
        Bodies::OfItem(goal, given) => fit_projection(ctx, param_env, goal, given, span),
        Bodies::OfTwo => Ok(Fitting::Apart),
        Bodies::Unclear => Ok(Fitting::Left),
    }
}
