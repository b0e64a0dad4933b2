//! The smallest obligation with a cause: a clause, and by how many steps it follows from one that was given.
ghost use Rattle.std.specs.Prelude.{◌≡◌};
ghost use Rattle.relation_terms.specs.Meaning.{Meaning};

use relation_folds::tree::HasTree;
use relation_terms::predicate::TraitPredicate;
use relation_terms::terms::{Binder, Clause, ClauseKey, Interner, Predicate, Span};
use relation_tools::elaborate::Elaboratable;

/// A clause, and by how many steps it follows.
#[derive(Clone, Copy)]
pub struct Counted<X> {
    pub clause: ClauseKey<X>,
    pub steps: usize,
}

/// What stands for a tree says which, and that it keeps it while the interner grows.
impl<I: Interner> HasTree<I> for Counted<I::Key> {
    ghost tree = { λ m c. m.clause c.clause };

    ghost stays = { λ m n e c h. e.clause c.clause h };
}

impl<I: Interner> Elaboratable<I> for Counted<I::Key> {
    fn predicate(&self, cx: &I) -> Predicate<I> {
        cx.clause_as_predicate(&self.clause)
    }

    fn child(&self, clause: Clause<I>) -> Self
        ensures { (m : Meaning I.Key I.Id I.Name) → m.clause result.clause ≡ m.clause clause }
    {
        let steps = self.steps.saturating_add(1);
        Counted { clause, steps }
    }

    fn child_with_derived_cause(
        &self,
        clause: Clause<I>,
        _span: Span<I>,
        _parent: Binder<I::Key, TraitPredicate<I::Key, I::Id>>,
        _index: usize,
    ) -> Self
        ensures { (m : Meaning I.Key I.Id I.Name) → m.clause result.clause ≡ m.clause clause }
    {
        let steps = self.steps.saturating_add(1);
        Counted { clause, steps }
    }
}
