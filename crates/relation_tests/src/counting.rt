//! A relation around another one, which counts the goals that are registered by it.
ghost use Rattle.relation_semantics.specs.Goals.{KnowsGoal};

use reference_interner::RefInterner;
use relation_reference::context::RefCtxt;
use relation_semantics::infer_ctxt::{InferCtxtLike, TypingMode};
use relation_terms::predicate::PredicateKind;
use relation_terms::terms::{
    Binder, Goal, Interner, OutOfMemory, ParamEnv, Predicate, Span, Ty, Variance,
};
use std::test::Fail;
use type_relations::relate::combine::PredicateEmittingRelation;
use type_relations::relate::solver_relating::{GoalOf, SolverRelating};
use type_relations::relate::{HasState, StructurallyRelateAliases};

/// A relation, and how many goals were to be registered by it.
#[derive(Drop)]
struct Counting<R> {
    inner: R,
    count: usize,
}

impl<I: Interner, R: HasState<I>> HasState<I> for Counting<R> {
    ghost state = { λ r. R.state r.inner };
}

impl<Infcx: InferCtxtLike, R: PredicateEmittingRelation<Infcx>> PredicateEmittingRelation<Infcx>
    for Counting<R> {
    ghost context = { λ r. R.context r.inner };

    ghost with_context = { λ r c. record r { inner = R.with_context r.inner c } };

    fn infcx(&self) -> &Infcx {
        self.inner.infcx()
    }

    fn infcx_mut(&mut self) -> &mut Infcx {
        self.inner.infcx_mut()
    }

    fn lemma_context_grows(&self) {
        self.inner.lemma_context_grows();
    }

    fn span(&self) -> Span<Infcx::Interner> {
        self.inner.span()
    }

    fn param_env(&self) -> ParamEnv<Infcx::Interner> {
        self.inner.param_env()
    }

    fn structurally_relate_aliases(&self) -> StructurallyRelateAliases {
        self.inner.structurally_relate_aliases()
    }

    fn register_alias_relate_predicate(
        &mut self,
        a: &Ty<Infcx::Interner>,
        b: &Ty<Infcx::Interner>,
    ) -> Result<(), OutOfMemory> {
        self.count = self.count.saturating_add(1);
        self.inner.register_alias_relate_predicate(a, b)
    }

    fn register_goals(&mut self, goals: &[GoalOf<Infcx::Interner>]) -> Result<(), OutOfMemory> {
        self.count = self.count.saturating_add(goals.len());
        self.inner.register_goals(goals)
    }

    fn register_predicates(
        &mut self,
        predicates: &[Predicate<Infcx::Interner>],
    ) -> Result<(), OutOfMemory> {
        self.count = self.count.saturating_add(predicates.len());
        self.inner.register_predicates(predicates)
    }

    ghost over = { λ r. R.over r.inner };
}

// Whether a goal that is registered is counted, and the context reached.
fn counts<C: InferCtxtLike, R: PredicateEmittingRelation<C>>(
    counting: &mut Counting<R>,
    goal: GoalOf<C::Interner>,
) -> Result<bool, OutOfMemory>
    requires { KnowsGoal (R.state (counting.old).inner).meaning goal }
{
    let mut goals = Vec::new(counting.infcx().cx().alloc());
    goals.push(goal)?;
    counting.register_goals(goals.as_slice())?;
    Ok((counting.count == 1) & (counting.infcx().budget_left() == 3))
}

// Whether the relation of a context does so, and gives the context back.
fn goes_around<C: InferCtxtLike>(
    ctx: &mut C,
    goal: GoalOf<C::Interner>,
) -> Result<bool, OutOfMemory>
    requires { KnowsGoal (C.state ctx.old).meaning goal }
{
    let aliases = StructurallyRelateAliases::No;
    let span = ctx.cx().dummy_span();
    let inner = SolverRelating::new(ctx, aliases, Variance::Covariant, goal.param_env, span);
    let mut counting = Counting { inner, count: 0 };
    let fine = counts(&mut counting, goal)?;
    Ok(fine & (counting.inner.into_infcx().budget_left() == 3))
}

// Whether one around that of a new context does.
#[tactic(auto, using(relation_terms::proofs::Stays::knows_param_env))]
fn all_go<I: Interner + Drop>(mut cx: I) -> Result<bool, OutOfMemory> {
    let param_env = cx.empty_param_env()?;
    let variables = Vec::new(cx.alloc());
    let bound_vars = cx.mk_bound_vars(&variables)?;
    let value = PredicateKind::Ambiguous;
    let predicate = cx.mk_predicate(Binder { value, bound_vars })?;
    let mut ctx = RefCtxt::new(cx, TypingMode::PostAnalysis, true, 3)?;
    let goal = Goal {
        param_env,
        predicate,
    };
    goes_around(&mut ctx, goal)
}

#[test]
fn goals_are_counted(rt: HostRuntime) -> Result<(), Fail> {
    assert!(rt; all_go(RefInterner::new(rt.alloc())) == Ok(true));
    Ok(())
}
