//! What a goal and what a rule gives say, side by side.
ghost use Rattle.std.specs.Prelude.{◌≡◌, IsTrue};
ghost use Rattle.relation_terms.specs.Trees.{known};
ghost use Rattle.relation_terms.specs.Predicates.{alias_term_kind, clause_kind_tree};
ghost use Rattle.relation_proving.specs.Bodies.{AreOfOneItem, TellsBodies, TellsKinds};

use crate::reading::{ClauseKindOf, ProjectionPredicateOf, are_of_two, clause_body};
use relation_terms::predicate::{AliasTermKind, ClauseKind, ProjectionPredicate, TraitPredicate};
use relation_terms::terms::{Clause, Interner};

/// What two clauses say whose binders bind nothing.
#[derive(Drop)]
pub(crate) enum Bodies<X, D> {
    /// Both say something of traits.
    OfTrait(TraitPredicate<X, D>, TraitPredicate<X, D>),
    /// Both say to what an alias of one item comes, with as many arguments.
    OfItem(ProjectionPredicate<X, D>, ProjectionPredicate<X, D>),
    /// They say something of two traits, of two items, or of a trait and an item.
    OfTwo,
    /// They say something else, or a binder binds something.
    Unclear,
}

// Whether two aliases are associated types, or associated constants, of traits.
fn are_of_one_kind<D>(first: &AliasTermKind<D>, second: &AliasTermKind<D>) -> bool
    ensures { IsTrue result → alias_term_kind first.now ≡ alias_term_kind second.now }
{
    matches!(
        (first, second),
        (
            AliasTermKind::ProjectionTy { .. },
            AliasTermKind::ProjectionTy { .. }
        ) | (
            AliasTermKind::ProjectionConst { .. },
            AliasTermKind::ProjectionConst { .. }
        )
    )
}

// Whether two clauses say to what an alias of one item comes, with as many arguments.
fn are_of_one_item<I: Interner>(
    cx: &I,
    first: &ProjectionPredicateOf<I>,
    second: &ProjectionPredicateOf<I>,
) -> bool
    requires first_known { IsTrue (known ((I.meaning cx.now).args ((first.now).projection_term).args)) }
    requires second_known { IsTrue (known ((I.meaning cx.now).args ((second.now).projection_term).args)) }
    ensures { IsTrue result → AreOfOneItem (I.meaning cx.now) first.now second.now }
{
    let (left, right) = (&first.projection_term, &second.projection_term);
    if left.def_id().0 != right.def_id().0 || !are_of_one_kind(&left.kind, &right.kind) {
        return false;
    }
    cx.args(&left.args).len() == cx.args(&right.args).len()
}

// The same of what two such clauses say.
fn said<I: Interner>(cx: &I, goal: ClauseKindOf<I>, given: ClauseKindOf<I>) -> Bodies<I::Key, I::Id>
    requires goal_known { IsTrue (known (clause_kind_tree (I.meaning cx.now) goal)) }
    requires given_known { IsTrue (known (clause_kind_tree (I.meaning cx.now) given)) }
    ensures { TellsKinds (I.meaning cx.now) goal given result }
{
    if are_of_two(cx, &goal, &given) {
        return Bodies::OfTwo;
    }
    match (goal, given) {
        (ClauseKind::Trait(goal), ClauseKind::Trait(given)) => Bodies::OfTrait(goal, given),
        (ClauseKind::Projection(goal), ClauseKind::Projection(given)) => {
            if are_of_one_item(cx, &goal, &given) {
                Bodies::OfItem(goal, given)
            } else {
                Bodies::Unclear
            }
        }
        _ => Bodies::Unclear,
    }
}

/// What two clauses say whose binders bind nothing. The interner has to know both.
pub(crate) fn compare<I: Interner>(
    cx: &I,
    goal: &Clause<I>,
    given: &Clause<I>,
) -> Bodies<I::Key, I::Id>
    requires goal_known { IsTrue (known ((I.meaning cx.now).clause goal.now)) }
    requires given_known { IsTrue (known ((I.meaning cx.now).clause given.now)) }
    ensures { TellsBodies (I.meaning cx.now) goal.now given.now result }
{
    let Some(goal) = clause_body(cx, goal) else {
        return Bodies::Unclear;
    };
    let Some(given) = clause_body(cx, given) else {
        return Bodies::Unclear;
    };
    said(cx, goal, given)
}
