//! Relating as a solver does: by what a context has recorded, and by recording more.
ghost use Rattle.std.specs.Prelude.{◌≢◌, []};
ghost use Rattle.term_enums.specs.declared.Variance.TheVariants.{Invariant};
ghost use Rattle.term_enums.specs.declared.StructurallyRelateAliases.TheVariants.{No, Yes};
ghost use Rattle.relation_semantics.specs.Contexts.{KnowsEnv};
ghost use Rattle.context_relation.specs.Relating.{AnswersAsked, TaintsForError, AsksIfOpen};
ghost use Rattle.context_relation.specs.Completing.{Complete, RelatesWhereAsked};
ghost use Rattle.context_relation.specs.Closed.{LeavesClosed, AsksNothing, SpendsForVariables};
ghost use Rattle.relation_steps.specs.Terms.{AskedTerms, RelatedTerms, TermsRegister};
ghost use Rattle.relation_combining.specs.Solving.{solving_in, solver_manner};
ghost use Rattle.type_relations.specs.Contract.{CanRelate, RelatesBoth, LosesNone, FaultIsTrue, AsksOnly, LeavesRest};

pub use context_relation::relation::SolverRelating;
use relation_folds::error::RelateResult;
pub use relation_goals::goals::GoalOf;
use relation_recursion::relatable::Relate;
use relation_semantics::infer_ctxt::InferCtxtLike;
use relation_semantics::relate::StructurallyRelateAliases;
use relation_terms::terms::{Interner, ParamEnv, Span, Variance};

/// The goals that relating answers, or why it stopped.
pub type RelateGoals<I> = RelateResult<I, Vec<GoalOf<I>>>;

/// An inference context that relates terms.
pub trait RelateExt: InferCtxtLike {
    /// Relates two types, or two others that can be related, at a variance, and answers the goals under which they are
    /// related: regions, constants, patterns, signatures, predicates of trait objects and lists of these, generic
    /// arguments, terms of projections, lists of arguments, pair by pair and each invariantly, trait references,
    /// predicates of traits, aliases and alias terms, or binders over what is no list.
    ///
    /// Both and the environment are the interner's, and the variables in them are the context's. They are related at
    /// each variance but `Bivariant`; two lists have as many arguments, and each binder binds what stands in its body
    /// as what its list says it is. A stand-in stands in none.
    ///
    /// With the next solver, what an alias or an unevaluated constant comes to is left to it: a goal asks that it and
    /// the other term are one, or of types at `Covariant` and `Contravariant` in order. A variable that would be bound
    /// to what has an alias in which it stands itself, or a placeholder that it can't name, is bound to that with a new
    /// variable in the alias's place, and a goal asks of that one and the alias. With the old solver aliases are
    /// related by their items and arguments, but in coherence an opaque type beside any other but a variable answers
    /// the goal `Ambiguous`. An error is related with each term of its sort, and taints the context.
    ///
    /// After `Ok`, each assignment that satisfies what is recorded and makes the goals true relates the two; and each
    /// that satisfied what was recorded and made them one extends to such a one. What clashes is refused. Equal ones
    /// record nothing, and ask for no goal. On each outcome all that was recorded stands. What else is promised is said
    /// at each field of the records in `specs/Contract`, and at the words of the other clauses.
    ///
    /// # Errors
    /// `Unrelated` only where no assignment that satisfied what was recorded makes the two one: with the error of the
    /// two, or of two parts that stand at one place, the left side's first; or of a variable that can't be bound to the
    /// other side, in which it stands itself, or a placeholder that it can't name. `Budget` only where no instantiation
    /// is left, and `Memory` where a growth was refused: these two lose no solution. What made the two one extends to
    /// what is recorded then, and who asks again with more gets the answer.
    fn relate<T: Relate<Self::Interner>>(
        &mut self,
        param_env: ParamEnv<Self::Interner>,
        lhs: T,
        variance: Variance,
        rhs: T,
        span: Span<Self::Interner>,
    ) -> RelateGoals<Self::Interner>
        requires can { CanRelate (Self.state self.old) T.over T.tree T.fits param_env variance lhs rhs }
        ensures both { RelatesBoth Self.state self.old self.new T.over T.tree No param_env variance lhs rhs result }
        ensures loses_none { LosesNone Self.state self.old self.new T.over T.tree variance lhs rhs result }
        ensures fault { FaultIsTrue Self.state self.old self.new T.over T.tree No variance lhs rhs result }
        ensures asks { AsksOnly Self.state self.old self.new T.over T.tree No param_env variance lhs rhs result }
        ensures leaves { LeavesRest Self.state self.old self.new T.over T.tree lhs rhs result }
        ensures complete { Complete Self.state self.old self.new T.over T.tree No param_env variance lhs rhs result }
        ensures met { RelatesWhereAsked Self.state self.old self.new T.over T.tree param_env variance lhs rhs result }
        ensures closed { LeavesClosed Self.state self.old self.new T.over T.tree lhs rhs result }
        ensures no_goals { AsksNothing Self.state self.old self.new T.over T.tree lhs rhs result }
        ensures alone { AnswersAsked Self.state self.old self.new T.over T.tree No param_env variance lhs rhs result }
        ensures taints { TaintsForError Self.state self.old self.new T.over T.tree lhs rhs result }
        ensures asks_open { AsksIfOpen Self.state self.old self.new T.over T.tree param_env variance lhs rhs result };

    /// Relates two at `Invariant`, aliases by their items and arguments: what `relate` relates, but that no alias is
    /// left to a goal, and none gives way to a variable where a variable is bound to what it stands in. All that
    /// `relate` promises at `Invariant` of two that aren't left to a goal it promises of all, but
    /// that it is complete and records just what is asked for: that it promises of terms without
    /// aliases. Its goals are at most that too much was met, with the old solver in coherence.
    fn eq_structurally_relating_aliases<T: Relate<Self::Interner>>(
        &mut self,
        param_env: ParamEnv<Self::Interner>,
        lhs: T,
        rhs: T,
        span: Span<Self::Interner>,
    ) -> RelateGoals<Self::Interner>
        requires can { CanRelate (Self.state self.old) T.over T.tree T.fits param_env Invariant lhs rhs }
        ensures both { RelatesBoth Self.state self.old self.new T.over T.tree Yes param_env Invariant lhs rhs result }
        ensures loses_none { LosesNone Self.state self.old self.new T.over T.tree Invariant lhs rhs result }
        ensures fault { FaultIsTrue Self.state self.old self.new T.over T.tree Yes Invariant lhs rhs result }
        ensures asks { AsksOnly Self.state self.old self.new T.over T.tree Yes param_env Invariant lhs rhs result }
        ensures leaves { LeavesRest Self.state self.old self.new T.over T.tree lhs rhs result }
        ensures complete { Complete Self.state self.old self.new T.over T.tree Yes param_env Invariant lhs rhs result }
        ensures met { RelatesWhereAsked Self.state self.old self.new T.over T.tree param_env Invariant lhs rhs result }
        ensures closed { LeavesClosed Self.state self.old self.new T.over T.tree lhs rhs result }
        ensures no_goals { AsksNothing Self.state self.old self.new T.over T.tree lhs rhs result }
        ensures taints { TaintsForError Self.state self.old self.new T.over T.tree lhs rhs result };
}

impl<Infcx: InferCtxtLike> RelateExt for Infcx {
    fn relate<T: Relate<Infcx::Interner>>(
        &mut self,
        param_env: ParamEnv<Infcx::Interner>,
        lhs: T,
        variance: Variance,
        rhs: T,
        span: Span<Infcx::Interner>,
    ) -> RelateGoals<Infcx::Interner>
        requires can { CanRelate (Infcx.state self.old) T.over T.tree T.fits param_env variance lhs rhs }
        ensures both { RelatesBoth Infcx.state self.old self.new T.over T.tree No param_env variance lhs rhs result }
        ensures loses_none { LosesNone Infcx.state self.old self.new T.over T.tree variance lhs rhs result }
        ensures fault { FaultIsTrue Infcx.state self.old self.new T.over T.tree No variance lhs rhs result }
        ensures asks { AsksOnly Infcx.state self.old self.new T.over T.tree No param_env variance lhs rhs result }
        ensures leaves { LeavesRest Infcx.state self.old self.new T.over T.tree lhs rhs result }
        ensures complete { Complete Infcx.state self.old self.new T.over T.tree No param_env variance lhs rhs result }
        ensures met { RelatesWhereAsked Infcx.state self.old self.new T.over T.tree param_env variance lhs rhs result }
        ensures closed { LeavesClosed Infcx.state self.old self.new T.over T.tree lhs rhs result }
        ensures no_goals { AsksNothing Infcx.state self.old self.new T.over T.tree lhs rhs result }
        ensures alone { AnswersAsked Infcx.state self.old self.new T.over T.tree No param_env variance lhs rhs result }
        ensures taints { TaintsForError Infcx.state self.old self.new T.over T.tree lhs rhs result }
        ensures asks_open { AsksIfOpen Infcx.state self.old self.new T.over T.tree param_env variance lhs rhs result }
    {
        relate_as(
            self,
            StructurallyRelateAliases::No,
            param_env,
            lhs,
            variance,
            rhs,
            span,
        )
    }

    fn eq_structurally_relating_aliases<T: Relate<Infcx::Interner>>(
        &mut self,
        param_env: ParamEnv<Infcx::Interner>,
        lhs: T,
        rhs: T,
        span: Span<Infcx::Interner>,
    ) -> RelateGoals<Infcx::Interner>
        requires can { CanRelate (Infcx.state self.old) T.over T.tree T.fits param_env Invariant lhs rhs }
        ensures both { RelatesBoth Infcx.state self.old self.new T.over T.tree Yes param_env Invariant lhs rhs result }
        ensures loses_none { LosesNone Infcx.state self.old self.new T.over T.tree Invariant lhs rhs result }
        ensures fault { FaultIsTrue Infcx.state self.old self.new T.over T.tree Yes Invariant lhs rhs result }
        ensures asks { AsksOnly Infcx.state self.old self.new T.over T.tree Yes param_env Invariant lhs rhs result }
        ensures leaves { LeavesRest Infcx.state self.old self.new T.over T.tree lhs rhs result }
        ensures complete { Complete Infcx.state self.old self.new T.over T.tree Yes param_env Invariant lhs rhs result }
        ensures met { RelatesWhereAsked Infcx.state self.old self.new T.over T.tree param_env Invariant lhs rhs result }
        ensures closed { LeavesClosed Infcx.state self.old self.new T.over T.tree lhs rhs result }
        ensures no_goals { AsksNothing Infcx.state self.old self.new T.over T.tree lhs rhs result }
        ensures taints { TaintsForError Infcx.state self.old self.new T.over T.tree lhs rhs result }
    {
        relate_as(
            self,
            StructurallyRelateAliases::Yes,
            param_env,
            lhs,
            Variance::Invariant,
            rhs,
            span,
        )
    }
}

// Relates two in a context at a variance, aliases as it says, and answers the goals.
fn relate_as<Infcx: InferCtxtLike, T: Relate<Infcx::Interner>>(
    infcx: &mut Infcx,
    aliases: StructurallyRelateAliases,
    param_env: ParamEnv<Infcx::Interner>,
    lhs: T,
    variance: Variance,
    rhs: T,
    span: Span<Infcx::Interner>,
) -> RelateGoals<Infcx::Interner>
    requires can { CanRelate (Infcx.state infcx.old) T.over T.tree T.fits param_env variance lhs rhs }
    ensures both { RelatesBoth Infcx.state infcx.old infcx.new T.over T.tree aliases param_env variance lhs rhs result }
    ensures loses_none { LosesNone Infcx.state infcx.old infcx.new T.over T.tree variance lhs rhs result }
    ensures fault { FaultIsTrue Infcx.state infcx.old infcx.new T.over T.tree aliases variance lhs rhs result }
    ensures asks { AsksOnly Infcx.state infcx.old infcx.new T.over T.tree aliases param_env variance lhs rhs result }
    ensures leaves { LeavesRest Infcx.state infcx.old infcx.new T.over T.tree lhs rhs result }
    ensures alone { let e = param_env in
        AnswersAsked Infcx.state infcx.old infcx.new T.over T.tree aliases e variance lhs rhs result }
    ensures taints { TaintsForError Infcx.state infcx.old infcx.new T.over T.tree lhs rhs result }
    ensures asks_open { AsksIfOpen Infcx.state infcx.old infcx.new T.over T.tree param_env variance lhs rhs result }
    ensures needs { SpendsForVariables Infcx.state infcx.old infcx.new T.over T.tree lhs rhs result }
{
    if lhs == rhs {
        return Ok(Vec::new(infcx.cx().alloc()));
    }
    let (related, goals) = relate_in(infcx, aliases, param_env, &lhs, variance, &rhs, span);
    related?;
    Ok(goals)
}

// Relates two in a context at a variance, in an environment, and answers what comes of it and the goals that were
// registered.
fn relate_in<Infcx: InferCtxtLike, T: Relate<Infcx::Interner>>(
    infcx: &mut Infcx,
    aliases: StructurallyRelateAliases,
    param_env: ParamEnv<Infcx::Interner>,
    a: &T,
    variance: Variance,
    b: &T,
    span: Span<Infcx::Interner>,
) -> (
    RelateResult<Infcx::Interner, T>,
    Vec<GoalOf<Infcx::Interner>>,
)
    requires lawful { (Infcx.state infcx.old).lawful }
    requires env_known { KnowsEnv (Infcx.state infcx.old) param_env }
    requires decides { variance ≢ Variance.Bivariant }
    requires fits { T.fits (Infcx.state infcx.old).meaning a.now b.now }
    requires asked { let before = solving_in aliases [] (Infcx.state infcx.old) variance param_env in
        AskedTerms solver_manner T.over T.tree before a.now b.now }
    ensures related { let before = solving_in aliases [] (Infcx.state infcx.old) variance param_env in
        let after = solving_in aliases result.1.items (Infcx.state infcx.new) variance param_env in
        RelatedTerms solver_manner T.over T.tree before after a.now b.now result.0 }
    ensures registers { let before = solving_in aliases [] (Infcx.state infcx.old) variance param_env in
        let after = solving_in aliases result.1.items (Infcx.state infcx.new) variance param_env in
        TermsRegister solver_manner T.over T.tree before after a.now b.now result.0 }
{
    let mut relation = SolverRelating::new(infcx, aliases, variance, param_env, span);
    let related = relation.relate(a, b);
    let goals = relation.take_goals();
    let _infcx = relation.into_infcx();
    (related, goals)
}
