//! What stands for a tree: keys of terms, and forms over keys.
ghost use Rattle.std.specs.Prelude.{◌≡◌, IsTrue};
ghost use Rattle.relation_terms.specs.Trees.{Tree, known};
ghost use Rattle.relation_terms.specs.Meaning.{Meaning, Extends, arg_tree, term_tree};
ghost use Rattle.relation_terms.specs.Meaning.{under, signature_tree, existential_tree};
ghost use Rattle.relation_terms.specs.declared.predicate.existential.ExistentialPredicate.TheVariants.{Trait};
ghost use Rattle.relation_terms.specs.declared.predicate.existential.ExistentialPredicate.TheVariants.{Projection};
ghost use Rattle.relation_terms.proofs.Stays.{stays_arg, stays_term, stays_signature, stays_existential};
ghost use Rattle.relation_terms.proofs.Binders.{under_stays};
ghost use Rattle.relation_folds.specs.Faults.{pair_tree, error_tree, stays_pair, stays_error};

mod goals;
mod predicates;

use crate::error::{ExpectedFound, TypeError};
use relation_terms::predicate::{ExistentialPredicate, ExistentialProjection, ExistentialTraitRef};
use relation_terms::terms::{
    AlternativesKey, ArgsKey, Binder, BranchesKey, ConstKey, ExistentialPredicatesKey, FnSig,
    GenericArgKind, Interner, PatKey, RegionKey, TermKind, TyKey, TysKey, ValTreeKey,
};

/// What stands for a tree in an interner: what can be visited, folded and related.
///
/// All three speak of this one tree. It is that of a term, or the list of the trees of several terms.
pub trait HasTree<I: Interner> {
    // The tree, or the list of trees, that it means.
    ghost tree: { Meaning I.Key I.Id I.Name → Self → Tree };

    // What is known keeps its tree while the interner grows.
    ghost stays: { (m n : Meaning I.Key I.Id I.Name) → Extends m n → (x : Self) → IsTrue (known (tree m x)) →
        tree n x ≡ tree m x };
}

impl<I: Interner> HasTree<I> for TyKey<I::Key> {
    ghost tree = { λ m k. m.ty k };

    ghost stays = { λ m n e k h. e.ty k h };
}

impl<I: Interner> HasTree<I> for RegionKey<I::Key> {
    ghost tree = { λ m k. m.region k };

    ghost stays = { λ m n e k h. e.region k h };
}

impl<I: Interner> HasTree<I> for ConstKey<I::Key> {
    ghost tree = { λ m k. m.const_ k };

    ghost stays = { λ m n e k h. e.const_ k h };
}

impl<I: Interner> HasTree<I> for ArgsKey<I::Key> {
    ghost tree = { λ m k. m.args k };

    ghost stays = { λ m n e k h. e.args k h };
}

impl<I: Interner> HasTree<I> for TysKey<I::Key> {
    ghost tree = { λ m k. m.tys k };

    ghost stays = { λ m n e k h. e.tys k h };
}

impl<I: Interner> HasTree<I> for ValTreeKey<I::Key> {
    ghost tree = { λ m k. m.valtree k };

    ghost stays = { λ m n e k h. e.valtree k h };
}

impl<I: Interner> HasTree<I> for BranchesKey<I::Key> {
    ghost tree = { λ m k. m.branches k };

    ghost stays = { λ m n e k h. e.branches k h };
}

impl<I: Interner> HasTree<I> for PatKey<I::Key> {
    ghost tree = { λ m k. m.pat k };

    ghost stays = { λ m n e k h. e.pat k h };
}

impl<I: Interner> HasTree<I> for AlternativesKey<I::Key> {
    ghost tree = { λ m k. m.alternatives k };

    ghost stays = { λ m n e k h. e.alternatives k h };
}

impl<I: Interner> HasTree<I> for GenericArgKind<I::Key> {
    ghost tree = { λ m a. arg_tree m a };

    ghost stays = { λ m n e a h. stays_arg e a h };
}

impl<I: Interner> HasTree<I> for TermKind<I::Key> {
    ghost tree = { λ m a. term_tree m a };

    ghost stays = { λ m n e a h. stays_term e a h };
}

impl<I: Interner> HasTree<I> for ExistentialPredicatesKey<I::Key> {
    ghost tree = { λ m k. m.existential_predicates k };

    ghost stays = { λ m n e k h. e.existential_predicates k h };
}

impl<I: Interner> HasTree<I> for FnSig<I::Key> {
    ghost tree = { λ m s. signature_tree m s };

    ghost stays = { λ m n e s h. stays_signature e s h };
}

impl<I: Interner> HasTree<I> for ExistentialPredicate<I::Key, I::Id> {
    ghost tree = { λ m p. existential_tree m p };

    ghost stays = { λ m n e p h. stays_existential e p h };
}

impl<I: Interner> HasTree<I> for ExistentialTraitRef<I::Key, I::Id> {
    ghost tree = { λ m t. existential_tree m (Trait t) };

    ghost stays = { λ m n e t h. stays_existential e (Trait t) h };
}

impl<I: Interner> HasTree<I> for ExistentialProjection<I::Key, I::Id> {
    ghost tree = { λ m p. existential_tree m (Projection p) };

    ghost stays = { λ m n e p h. stays_existential e (Projection p) h };
}

/// The tree of the body, under the binder.
impl<I: Interner, T: HasTree<I>> HasTree<I> for Binder<I::Key, T> {
    ghost tree = { λ m b. under (m.bound_vars b.bound_vars) (T.tree m b.value) };

    ghost stays = { λ m n e b h. under_stays (m.bound_vars b.bound_vars) (n.bound_vars b.bound_vars)
        (T.tree m b.value) (T.tree n b.value) (e.bound_vars b.bound_vars) (T.stays m n e b.value) h };
}

/// The list of both trees, the expected one first.
impl<I: Interner, T: HasTree<I>> HasTree<I> for ExpectedFound<T> {
    ghost tree = { λ m p. pair_tree (T.tree m) p };

    ghost stays = { λ m n e p h. stays_pair (T.tree m) (T.tree n) p (T.stays m n e) h };
}

/// The terms and the lists of predicates that an error names, in order. What is no term is passed over.
impl<I: Interner> HasTree<I> for TypeError<I::Key, I::Id, I::Name> {
    ghost tree = { λ m e. error_tree m e };

    ghost stays = { λ m n e x h. stays_error e x h };
}
