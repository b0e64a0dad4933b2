//! The trees of goals, and of what is recorded of regions.
ghost use Rattle.relation_folds.specs.Goals.{outlives_tree, region_eq_tree, constraint_tree, goal_tree};
ghost use Rattle.relation_folds.specs.Goals.{stays_outlives, stays_region_eq, stays_constraint, stays_goal};

use crate::tree::HasTree;
use relation_terms::predicate::{OutlivesPredicate, RegionConstraint, RegionEqPredicate};
use relation_terms::terms::{GenericArgKind, Goal, Interner};

/// The list of what outlives and of the region.
impl<I: Interner> HasTree<I> for OutlivesPredicate<I::Key, GenericArgKind<I::Key>> {
    ghost tree = { λ m p. outlives_tree m p };

    ghost stays = { λ m n e p h. stays_outlives e p h };
}

/// The list of both regions.
impl<I: Interner> HasTree<I> for RegionEqPredicate<I::Key> {
    ghost tree = { λ m p. region_eq_tree m p };

    ghost stays = { λ m n e p h. stays_region_eq e p h };
}

impl<I: Interner> HasTree<I> for RegionConstraint<I::Key> {
    ghost tree = { λ m p. constraint_tree m p };

    ghost stays = { λ m n e p h. stays_constraint e p h };
}

/// The list of the environment and of the predicate.
impl<I: Interner, P: HasTree<I>> HasTree<I> for Goal<I::Key, P> {
    ghost tree = { λ m goal. goal_tree m (P.tree m) goal };

    ghost stays = { λ m n e goal h. stays_goal e (P.tree m) (P.tree n) goal (P.stays m n e) h };
}
