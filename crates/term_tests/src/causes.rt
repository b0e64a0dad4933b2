//! An obligation with a cause of its own goes through an elaboration.
ghost use Rattle.std.specs.Prelude.{◌≡◌, IsTrue, IfOk};
ghost use Rattle.std.specs.List.{All};
ghost use Rattle.relation_terms.specs.Trees.{known};
ghost use Rattle.relation_terms.specs.Meaning.{Meaning};
ghost use Rattle.relation_terms.specs.Owned.{IsStated};

use crate::predicates::{make_args, make_no_vars};
use relation_terms::predicate::{
    ClauseKind, OutlivesPredicate, TraitPredicate, TraitRef, as_trait_clause, clause_of_trait_ref,
};
use relation_terms::terms::{
    Binder, Clause, ClauseKey, Interner, OutOfMemory, ParamTy, Predicate, RegionKind, Span,
    TraitId, TyKind,
};
use relation_tools::elaborate::{ClauseWithSupertraitSpan, Elaboratable, elaborate};
use relation_tools::error::ElabFault;
use relation_tools::tree::HasTree;

// Why an obligation is there: it was given, another one implies it, or a trait states it at a place of its list.
#[derive(Clone, Copy)]
enum Cause<X, D, S> {
    Given,
    Implied,
    Stated {
        by: Binder<X, TraitPredicate<X, D>>,
        span: S,
        index: usize,
    },
}

// A clause, and why it is there.
#[derive(Clone, Copy)]
struct Caused<X, D, S> {
    clause: ClauseKey<X>,
    cause: Cause<X, D, S>,
}

impl<I: Interner> HasTree<I> for Caused<I::Key, I::Id, I::Span> {
    ghost tree = { λ m c. m.clause c.clause };

    ghost stays = { λ m n e c h. e.clause c.clause h };
}

impl<I: Interner> Elaboratable<I> for Caused<I::Key, I::Id, I::Span> {
    fn predicate(&self, cx: &I) -> Predicate<I> {
        cx.clause_as_predicate(&self.clause)
    }

    fn child(&self, clause: Clause<I>) -> Self
        ensures { (m : Meaning I.Key I.Id I.Name) → m.clause result.clause ≡ m.clause clause }
    {
        let cause = Cause::Implied;
        Caused { clause, cause }
    }

    fn child_with_derived_cause(
        &self,
        clause: Clause<I>,
        span: Span<I>,
        parent: Binder<I::Key, TraitPredicate<I::Key, I::Id>>,
        index: usize,
    ) -> Self
        ensures { (m : Meaning I.Key I.Id I.Name) → m.clause result.clause ≡ m.clause clause }
    {
        let by = parent;
        let cause = Cause::Stated { by, span, index };
        Caused { clause, cause }
    }
}

// An obligation of an interner.
type CausedOf<I> = Caused<
    <I as relation_terms::terms::Keys>::Key,
    <I as relation_terms::terms::Keys>::Id,
    <I as relation_terms::terms::Keys>::Span,
>;

// What the two first pulls of an obligation that is given answer, if a third one answers that this was all.
type Two<I> = Option<(CausedOf<I>, CausedOf<I>)>;

// What follows from a clause that is given, where that is one more.
#[tactic(auto, using(crate::proofs::Stated::all_of_one))]
fn two_of<I: Interner>(cx: &mut I, clause: Clause<I>) -> Result<Two<I>, ElabFault>
    requires { IsTrue (known ((I.meaning cx.old).clause clause)) }
{
    let cause = Cause::Given;
    let mut given = Vec::new(cx.alloc());
    given.push(Caused { clause, cause })?;
    let mut elaborator = elaborate(cx, given, 9)?;
    let first = elaborator.pull();
    let second = elaborator.pull();
    match (first, second, elaborator.pull()) {
        (Some(Ok(first)), Some(Ok(second)), None) => Ok(Some((first, second))),
        _ => Ok(None),
    }
}

// The clause that a plain type implements a trait.
#[tactic(auto, using(relation_terms::proofs::Stays::knows_args, crate::proofs::Carried::known_under))]
fn make_implements<I: Interner>(
    cx: &mut I,
    def_id: TraitId<I::Id>,
) -> Result<Clause<I>, OutOfMemory>
    ensures { IfOk result (λ k. IsTrue (known ((I.meaning cx.new).clause k))) }
{
    let args = make_args(cx)?;
    let bound_vars = make_no_vars(cx)?;
    let value = TraitRef { def_id, args };
    clause_of_trait_ref(cx, Binder { value, bound_vars })
}

/// The clause that the feature of a name is allowed.
#[tactic(auto, using(crate::proofs::Stated::feature_is_stated))]
pub fn make_feature<I: Interner>(cx: &mut I, name: I::Name) -> Result<Clause<I>, OutOfMemory>
    ensures { IfOk result (λ k. IsStated (I.meaning cx.new) k) }
{
    let bound_vars = make_no_vars(cx)?;
    let value = ClauseKind::UnstableFeature(name);
    cx.mk_clause(Binder { value, bound_vars })
}

// Whether a trait is the cause of a clause, as the first that it states.
fn is_caused<I: Interner>(
    caused: &CausedOf<I>,
    of: Option<Binder<I::Key, TraitPredicate<I::Key, I::Id>>>,
) -> bool {
    match caused.cause {
        Cause::Stated { by, span: _, index } => (of == Some(by)) & (index == 0),
        _ => false,
    }
}

// Whether what a trait states alone follows from that it is implemented, and for that reason.
fn stated_goes<I: Interner>(
    cx: &mut I,
    of: TraitId<I::Id>,
    stated: Clause<I>,
) -> Result<bool, ElabFault> {
    let clause = make_implements(cx, of)?;
    let by = as_trait_clause(cx, &clause);
    let Some((first, second)) = two_of(cx, clause)? else {
        return Ok(false);
    };
    let fine = matches!(first.cause, Cause::Given) & (first.clause == clause);
    Ok(fine & (second.clause == stated) & is_caused::<I>(&second, by))
}

// The clause that a type outlives a region, and whether it is of a slice.
#[tactic(auto, using(relation_terms::proofs::Stays::knows_ty, relation_terms::proofs::Stays::knows_region, crate::proofs::Carried::known_under))]
fn make_outlives<I: Interner>(
    cx: &mut I,
    name: I::Name,
    slice: bool,
) -> Result<Clause<I>, OutOfMemory>
    ensures { IfOk result (λ k. IsTrue (known ((I.meaning cx.new).clause k))) }
{
    let mut ty = cx.mk_ty(TyKind::Param(ParamTy { index: 0, name }))?;
    if slice {
        ty = cx.mk_ty(TyKind::Slice(ty))?;
    }
    let region = cx.mk_region(RegionKind::ReStatic)?;
    let bound_vars = make_no_vars(cx)?;
    let value = ClauseKind::TypeOutlives(OutlivesPredicate(ty, region));
    cx.mk_clause(Binder { value, bound_vars })
}

// Whether the component of a slice outlives what the slice does, for no reason of a trait.
fn implied_goes<I: Interner>(cx: &mut I, name: I::Name) -> Result<bool, ElabFault> {
    let follows = make_outlives(cx, name, false)?;
    let clause = make_outlives(cx, name, true)?;
    let Some((_first, second)) = two_of(cx, clause)? else {
        return Ok(false);
    };
    Ok(matches!(second.cause, Cause::Implied) & (second.clause == follows))
}

// Whether a clause with a place is yielded as it was given.
#[tactic(auto, using(crate::proofs::Stated::all_of_one))]
fn places_go<I: Interner>(cx: &mut I, name: I::Name) -> Result<bool, ElabFault> {
    let clause = make_feature(cx, name)?;
    let mut given = Vec::new(cx.alloc());
    given.push(ClauseWithSupertraitSpan::new(clause, cx.dummy_span()))?;
    let mut elaborator = elaborate(cx, given, 1)?;
    let fine = elaborator.size_hint() == (1, None);
    match elaborator.pull() {
        Some(Ok(placed)) => Ok(fine & (placed.clause == clause)),
        _ => Ok(false),
    }
}

/// Whether all of these hold, of a trait that states a clause alone.
pub fn all_go<I: Interner>(
    cx: &mut I,
    of: TraitId<I::Id>,
    stated: Clause<I>,
    name: I::Name,
) -> bool {
    let fine = stated_goes(cx, of, stated) == Ok(true);
    fine & (implied_goes(cx, name) == Ok(true)) & (places_go(cx, name) == Ok(true))
}
