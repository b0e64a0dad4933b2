//! What traits state, one by one.
ghost use Rattle.std.specs.Prelude.{◌≡◌, ◌<◌, IsTrue, length, map, get_or};
ghost use Rattle.relation_terms.specs.Trees.{known, nil};
ghost use Rattle.relation_terms.specs.Owned.{bound_tree};
ghost use Rattle.relation_statements.specs.Statements.{statements, listed, is_left};

use crate::trait_clauses::BoundTraitRef;
use relation_terms::predicate::TraitPredicate;
use relation_terms::terms::{
    Clause, Interner, PredicatePolarity, SolverTraitLangItem, Span, TraitId,
};

// What a trait states: its super-predicates, or all that it implies.
fn stated<'a, I: Interner>(
    cx: &'a I,
    trait_id: &TraitId<I::Id>,
    only_self: bool,
) -> &'a [(Clause<I>, Span<I>)]
    ensures { let m = I.meaning cx.now in
        map (λ p. m.clause p.0) result.now ≡ listed only_self (statements m) (m.id (trait_id.now).0) }
{
    if only_self {
        cx.explicit_super_predicates_of(trait_id)
    } else {
        cx.explicit_implied_predicates_of(trait_id)
    }
}

/// How much a trait states: its super-predicates alone, or all that it implies.
pub fn stated_count<I: Interner>(cx: &I, trait_id: &TraitId<I::Id>, only_self: bool) -> usize
    ensures { let m = I.meaning cx.now in
        result ≡ length (listed only_self (statements m) (m.id (trait_id.now).0)) }
{
    stated(cx, trait_id, only_self).len()
}

/// What a trait states at a place of that list, and where it stands in the source.
pub fn stated_at<I: Interner>(
    cx: &I,
    trait_id: &TraitId<I::Id>,
    only_self: bool,
    index: usize,
) -> (Clause<I>, Span<I>)
    requires { let m = I.meaning cx.now in
        index < length (listed only_self (statements m) (m.id (trait_id.now).0)) }
    ensures is { let m = I.meaning cx.now in
        m.clause result.0 ≡ get_or (listed only_self (statements m) (m.id (trait_id.now).0)) index nil }
    ensures sure { IsTrue (known ((I.meaning cx.now).clause result.0)) }
{
    stated(cx, trait_id, only_self)[index]
}

/// Whether nothing is implied by a trait clause: it is negative, or of the trait `Sized` where that is not gone on from.
pub fn implies_nothing<I: Interner>(
    cx: &I,
    predicate: &TraitPredicate<I::Key, I::Id>,
    sized: bool,
) -> bool
    ensures { result ≡ is_left (statements (I.meaning cx.now)) sized (predicate.now).polarity
        ((I.meaning cx.now).id ((predicate.now).trait_ref.def_id).0) }
{
    match predicate.polarity {
        PredicatePolarity::Negative => true,
        PredicatePolarity::Positive => {
            cx.is_trait_lang_item(&predicate.trait_ref.def_id, SolverTraitLangItem::Sized) && !sized
        }
    }
}

/// A const bound of a trait, at a place.
pub fn bound_at<I: Interner>(cx: &I, trait_id: &TraitId<I::Id>, index: usize) -> BoundTraitRef<I>
    requires { let m = I.meaning cx.now in index < length ((statements m).bounds (m.id (trait_id.now).0)) }
    ensures is { let m = I.meaning cx.now in
        bound_tree m result ≡ get_or ((statements m).bounds (m.id (trait_id.now).0)) index nil }
    ensures sure { IsTrue (known (bound_tree (I.meaning cx.now) result)) }
{
    cx.explicit_implied_const_bounds(trait_id)[index]
}
