//! Deciding whether one term is a subtype of another, under facts on regions: the two are related, and what that
//! records is solved.
ghost use Rattle.std.specs.Prelude.{◌≡◌, All};
ghost use Rattle.relation_terms.specs.Meaning.{Extends};
ghost use Rattle.relation_folds.specs.Faults.{IfSpent};
ghost use Rattle.relation_semantics.specs.Steps.{IsLater};
ghost use Rattle.relation_semantics.specs.Stores.{IsSound};
ghost use Rattle.relation_regions.specs.Solving.{IsFactIn};
ghost use Rattle.type_relations.specs.Contract.{CanRelate};
ghost use Rattle.relation_regions.specs.Answers.{Decides, FollowsStill, IsCertain, IsClash, IsUnsaid, IsPossible};
ghost use Rattle.relation_regions.specs.Answers.{clash_of, told};

use crate::solving::{RegionOutlivesPredicate, Solved, solve};
use kept_records::RecordedRegions;
use relation_folds::error::{RelateFault, RelateResult, TypeError};
use relation_recursion::relatable::Relate;
use relation_terms::predicate::OutlivesPredicate;
use relation_terms::terms::{Goal, Keys, ParamEnv, PredicateKey, Span, Variance};
use term_enums::OutOfMemory;
use type_relations::relate::solver_relating::RelateExt;

/// Whether one term is a subtype of another where nothing is known of regions but facts.
#[derive(Drop)]
pub enum Subtyping<X: Copy, D, N> {
    /// It is, where the goals hold.
    Holds(Vec<Goal<X, PredicateKey<X>>>),
    /// The two clash, or two parts that stand at one place.
    Clash(TypeError<X, D, N>),
    /// The one region would have to outlive the other, which doesn't follow of the facts.
    Unmet(RegionOutlivesPredicate<X>),
}

/// The same of terms of an interner.
pub type SubtypingOf<I> = Subtyping<<I as Keys>::Key, <I as Keys>::Id, <I as Keys>::Name>;

/// Whether one term is a subtype of another where nothing is known of regions but facts: at `Covariant` the left one of
/// the right one, at `Contravariant` the other way round, at `Invariant` each of the other. What is asked of the terms
/// is what `relate` asks, and of the facts what `solve` asks.
///
/// Of two without variables, binders, aliases and errors it decides that, where what was recorded before follows of the
/// facts, as it does where nothing was: the answer is `Holds`, without goals, just if the two are related in each world
/// in which the facts hold and `'static` outlives all regions of the two. After `Holds` what is recorded follows of the
/// facts still, so the next two can be asked. Whatever was recorded before, `Holds` says the same, and `Clash` that the
/// two are related in no world at all; but `Unmet` may come of what was recorded before.
///
/// Of other terms `Holds` says that there is a world, in which of regions that are no variables nothing holds but what
/// follows of the facts, and an assignment that satisfies all that is recorded, which relate the two if the goals are
/// so. They may have others, which don't.
///
/// What `relate` records stands after each answer. Upstream the compiler's `relate_types` answers this, ignoring
/// regions.
///
/// # Errors
/// `Budget` only where no instantiation is left, and of the terms first named never. `Memory` where a growth was
/// refused. Variables may have been made then, and more recorded; all that was recorded stands.
pub fn decide_subtype<C: RecordedRegions, T: Relate<C::Interner>>(
    ctx: &mut C,
    param_env: ParamEnv<C::Interner>,
    lhs: T,
    variance: Variance,
    rhs: T,
    facts: &[RegionOutlivesPredicate<<C::Interner as Keys>::Key>],
    span: Span<C::Interner>,
) -> RelateResult<C::Interner, SubtypingOf<C::Interner>>
    requires can { CanRelate (C.state ctx.old) T.over T.tree T.fits param_env variance lhs rhs }
    requires facts_in { All (IsFactIn (C.state ctx.old)) facts.now }
    ensures decides { let e = param_env in
        Decides C.state ctx.old ctx.new facts.now T.over T.tree e variance lhs rhs result }
    ensures follows { let e = param_env in
        FollowsStill C.state ctx.old ctx.new facts.now T.over T.tree e variance lhs rhs result }
    ensures certain { let e = param_env in
        IsCertain C.state ctx.old ctx.new facts.now T.over T.tree e variance lhs rhs result }
    ensures clash { let e = param_env in
        IsClash C.state ctx.old ctx.new facts.now T.over T.tree e variance lhs rhs result }
    ensures unsaid { IsUnsaid C.state ctx.old ctx.new facts.now result }
    ensures possible { let e = param_env in
        IsPossible C.state ctx.old ctx.new facts.now T.over T.tree e variance lhs rhs result }
    ensures spent { IfSpent result ((C.state ctx.new).store.budget ≡ 0) }
    ensures later { IsLater (C.state ctx.old).store (C.state ctx.new).store }
    ensures sound { IsSound (C.state ctx.new).store }
    ensures lawful { (C.state ctx.new).lawful }
    ensures facts_stay { All (IsFactIn (C.state ctx.new)) facts.now }
    ensures grown { Extends (C.state ctx.old).meaning (C.state ctx.new).meaning }
{
    let goals = match ctx.relate(param_env, lhs, variance, rhs, span) {
        Ok(goals) => goals,
        Err(fault) => return without_goals(fault),
    };
    with_goals(goals, &solve(ctx, facts))
}

// What comes of it where the two aren't related: a clash is an answer.
fn without_goals<X: Copy, D: Copy, N: Copy>(
    fault: RelateFault<X, D, N>,
) -> Result<Subtyping<X, D, N>, RelateFault<X, D, N>>
    ensures { result ≡ clash_of fault }
{
    match fault {
        RelateFault::Unrelated(why) => Ok(Subtyping::Clash(why)),
        RelateFault::Budget => Err(RelateFault::Budget),
        RelateFault::Memory => Err(RelateFault::Memory),
    }
}

// What is answered where they are, if the goals hold: by what is solved.
fn with_goals<X: Copy, D: Copy, N: Copy>(
    goals: Vec<Goal<X, PredicateKey<X>>>,
    solved: &Result<Solved<X>, OutOfMemory>,
) -> Result<Subtyping<X, D, N>, RelateFault<X, D, N>>
    ensures { result ≡ told goals solved.now }
{
    let Ok(solved) = solved else {
        return Err(RelateFault::Memory);
    };
    match solved {
        Solved::Met(_) => Ok(Subtyping::Holds(goals)),
        Solved::Unmet {
            longer,
            shorter,
            ..
        } => Ok(Subtyping::Unmet(OutlivesPredicate(*longer, *shorter))),
    }
}
