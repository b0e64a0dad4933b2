//! The trees of predicates and of their parts, of clauses, and of lists and environments of these.
ghost use Rattle.relation_terms.specs.Predicates.{trait_ref_tree, alias_term_tree};
ghost use Rattle.relation_terms.specs.Predicates.{clause_kind_tree, predicate_kind_tree};
ghost use Rattle.relation_terms.specs.declared.predicate.kinds.ClauseKind.TheVariants.{Trait, Projection, HostEffect};
ghost use Rattle.relation_terms.specs.declared.predicate.kinds.ClauseKind.TheVariants.{RegionOutlives, TypeOutlives};
ghost use Rattle.relation_terms.specs.declared.predicate.kinds.PredicateKind.TheVariants.{Subtype, Coerce};
ghost use Rattle.relation_terms.specs.declared.predicate.kinds.PredicateKind.TheVariants.{NormalizesTo};
ghost use Rattle.relation_terms.proofs.Predicates.{stays_trait_ref, stays_alias_term};
ghost use Rattle.relation_terms.proofs.Predicates.{stays_clause_kind, stays_predicate_kind};
ghost use Rattle.relation_folds.specs.Aliases.{alias_ty_tree, stays_alias_ty};

use crate::tree::HasTree;
use relation_terms::predicate::{
    AliasTerm, ClauseKind, CoercePredicate, HostEffectPredicate,
    NormalizesTo as NormalizesToPredicate, OutlivesPredicate, PredicateKind, ProjectionPredicate,
    SubtypePredicate, TraitPredicate, TraitRef,
};
use relation_terms::terms::{
    AliasTy, ClauseKey, ClausesKey, Interner, ParamEnvKey, PredicateKey, RegionKey, TyKey,
};

impl<I: Interner> HasTree<I> for TraitRef<I::Key, I::Id> {
    ghost tree = { λ m t. trait_ref_tree m t };

    ghost stays = { λ m n e t h. stays_trait_ref e t h };
}

impl<I: Interner> HasTree<I> for AliasTerm<I::Key, I::Id> {
    ghost tree = { λ m a. alias_term_tree m a };

    ghost stays = { λ m n e a h. stays_alias_term e a h };
}

/// The tree of the alias term of its kind and its arguments: an alias by itself is no type.
impl<I: Interner> HasTree<I> for AliasTy<I::Key, I::Id> {
    ghost tree = { λ m a. alias_ty_tree m a };

    ghost stays = { λ m n e a h. stays_alias_ty e a h };
}

impl<I: Interner> HasTree<I> for TraitPredicate<I::Key, I::Id> {
    ghost tree = { λ m p. clause_kind_tree m (Trait p) };

    ghost stays = { λ m n e p h. stays_clause_kind e (Trait p) h };
}

impl<I: Interner> HasTree<I> for HostEffectPredicate<I::Key, I::Id> {
    ghost tree = { λ m p. clause_kind_tree m (HostEffect p) };

    ghost stays = { λ m n e p h. stays_clause_kind e (HostEffect p) h };
}

impl<I: Interner> HasTree<I> for ProjectionPredicate<I::Key, I::Id> {
    ghost tree = { λ m p. clause_kind_tree m (Projection p) };

    ghost stays = { λ m n e p h. stays_clause_kind e (Projection p) h };
}

impl<I: Interner> HasTree<I> for OutlivesPredicate<I::Key, RegionKey<I::Key>> {
    ghost tree = { λ m p. clause_kind_tree m (RegionOutlives p) };

    ghost stays = { λ m n e p h. stays_clause_kind e (RegionOutlives p) h };
}

impl<I: Interner> HasTree<I> for OutlivesPredicate<I::Key, TyKey<I::Key>> {
    ghost tree = { λ m p. clause_kind_tree m (TypeOutlives p) };

    ghost stays = { λ m n e p h. stays_clause_kind e (TypeOutlives p) h };
}

impl<I: Interner> HasTree<I> for SubtypePredicate<I::Key> {
    ghost tree = { λ m p. predicate_kind_tree m (Subtype p) };

    ghost stays = { λ m n e p h. stays_predicate_kind e (Subtype p) h };
}

impl<I: Interner> HasTree<I> for CoercePredicate<I::Key> {
    ghost tree = { λ m p. predicate_kind_tree m (Coerce p) };

    ghost stays = { λ m n e p h. stays_predicate_kind e (Coerce p) h };
}

impl<I: Interner> HasTree<I> for NormalizesToPredicate<I::Key, I::Id> {
    ghost tree = { λ m p. predicate_kind_tree m (NormalizesTo p) };

    ghost stays = { λ m n e p h. stays_predicate_kind e (NormalizesTo p) h };
}

impl<I: Interner> HasTree<I> for ClauseKind<I::Key, I::Id, I::Name> {
    ghost tree = { λ m c. clause_kind_tree m c };

    ghost stays = { λ m n e c h. stays_clause_kind e c h };
}

impl<I: Interner> HasTree<I> for PredicateKind<I::Key, I::Id, I::Name> {
    ghost tree = { λ m p. predicate_kind_tree m p };

    ghost stays = { λ m n e p h. stays_predicate_kind e p h };
}

impl<I: Interner> HasTree<I> for ClauseKey<I::Key> {
    ghost tree = { λ m k. m.clause k };

    ghost stays = { λ m n e k h. e.clause k h };
}

impl<I: Interner> HasTree<I> for PredicateKey<I::Key> {
    ghost tree = { λ m k. m.predicate k };

    ghost stays = { λ m n e k h. e.predicate k h };
}

impl<I: Interner> HasTree<I> for ClausesKey<I::Key> {
    ghost tree = { λ m k. m.clauses k };

    ghost stays = { λ m n e k h. e.clauses k h };
}

impl<I: Interner> HasTree<I> for ParamEnvKey<I::Key> {
    ghost tree = { λ m k. m.param_env k };

    ghost stays = { λ m n e k h. e.param_env k h };
}
