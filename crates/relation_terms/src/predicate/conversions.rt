//! Clauses that traits with arguments, trait predicates and projections are.
ghost use Rattle.std.specs.Prelude.{◌≡◌, IsTrue, IfOk, OnErr};
ghost use Rattle.relation_terms.specs.Trees.{known};
ghost use Rattle.relation_terms.specs.Meaning.{Extends};
ghost use Rattle.relation_terms.specs.Owned.{bound_tree};
ghost use Rattle.relation_terms.specs.Conversions.{trait_predicate_tree, projection_tree};
ghost use Rattle.relation_terms.specs.Edited.{IsTraitClause};

use crate::predicate::{ClauseKind, ProjectionPredicate, TraitPredicate, TraitRef};
use crate::terms::{Binder, Clause, Interner, OutOfMemory, PredicatePolarity};

/// The clause that a trait with its arguments is implemented, under its binder.
///
/// The interner has to know the trait reference. Answers `OutOfMemory` where a growth was refused, which leaves the
/// meaning of all keys as it was.
pub fn clause_of_trait_ref<I: Interner>(
    cx: &mut I,
    trait_ref: Binder<I::Key, TraitRef<I::Key, I::Id>>,
) -> Result<Clause<I>, OutOfMemory>
    requires { IsTrue (known (bound_tree (I.meaning cx.old) trait_ref)) }
    ensures grown { Extends (I.meaning cx.old) (I.meaning cx.new) }
    ensures sure { IfOk result (λ k. IsTrue (known ((I.meaning cx.new).clause k))) }
    ensures made { IfOk result (λ k. IsTraitClause I.meaning cx.old cx.new trait_ref k) }
    ensures refused { OnErr result (I.meaning cx.new ≡ I.meaning cx.old) }
{
    let value = ClauseKind::Trait(TraitPredicate {
        trait_ref: trait_ref.value,
        polarity: PredicatePolarity::Positive,
    });
    cx.mk_clause(Binder {
        value,
        bound_vars: trait_ref.bound_vars,
    })
}

/// The clause that a trait predicate is, under its binder.
///
/// The interner has to know the predicate. Answers `OutOfMemory` where a growth was refused, which leaves the meaning
/// of all keys as it was.
pub fn clause_of_trait_predicate<I: Interner>(
    cx: &mut I,
    predicate: Binder<I::Key, TraitPredicate<I::Key, I::Id>>,
) -> Result<Clause<I>, OutOfMemory>
    requires { IsTrue (known (trait_predicate_tree (I.meaning cx.old) predicate)) }
    ensures grown { Extends (I.meaning cx.old) (I.meaning cx.new) }
    ensures sure { IfOk result (λ k. IsTrue (known ((I.meaning cx.new).clause k))) }
    ensures made { IfOk result (λ k. (I.meaning cx.new).clause k ≡ trait_predicate_tree (I.meaning cx.old) predicate) }
    ensures refused { OnErr result (I.meaning cx.new ≡ I.meaning cx.old) }
{
    cx.mk_clause(Binder {
        value: ClauseKind::Trait(predicate.value),
        bound_vars: predicate.bound_vars,
    })
}

/// The clause that a projection is, under its binder.
///
/// The interner has to know the projection. Answers `OutOfMemory` where a growth was refused, which leaves the meaning
/// of all keys as it was.
pub fn clause_of_projection<I: Interner>(
    cx: &mut I,
    projection: Binder<I::Key, ProjectionPredicate<I::Key, I::Id>>,
) -> Result<Clause<I>, OutOfMemory>
    requires { IsTrue (known (projection_tree (I.meaning cx.old) projection)) }
    ensures grown { Extends (I.meaning cx.old) (I.meaning cx.new) }
    ensures sure { IfOk result (λ k. IsTrue (known ((I.meaning cx.new).clause k))) }
    ensures made { IfOk result (λ k. (I.meaning cx.new).clause k ≡ projection_tree (I.meaning cx.old) projection) }
    ensures refused { OnErr result (I.meaning cx.new ≡ I.meaning cx.old) }
{
    cx.mk_clause(Binder {
        value: ClauseKind::Projection(projection.value),
        bound_vars: projection.bound_vars,
    })
}
