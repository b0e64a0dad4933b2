//! What can be elaborated: predicates with whatever else.
ghost use Rattle.std.specs.Prelude.{◌≡◌, IsTrue};
ghost use Rattle.relation_terms.specs.Trees.{known};
ghost use Rattle.relation_terms.specs.Meaning.{Meaning};

use relation_folds::tree::HasTree;
use relation_terms::predicate::TraitPredicate;
use relation_terms::terms::{Binder, Clause, ClauseKey, Interner, Predicate, Span};

/// A predicate with whatever an elaboration is to carry along. Its tree is that of the predicate.
pub trait Elaboratable<I: Interner>: HasTree<I> + Drop {
    /// Its predicate. The interner has to know it.
    fn predicate(&self, cx: &I) -> Predicate<I>
        requires { IsTrue (known (Self.tree (I.meaning cx.now) self.now)) }
        ensures { (I.meaning cx.now).predicate result ≡ Self.tree (I.meaning cx.now) self.now };

    /// One for a clause that its predicate implies.
    fn child(&self, clause: Clause<I>) -> Self
        ensures { (m : Meaning I.Key I.Id I.Name) → Self.tree m result ≡ m.clause clause };

    /// One for a clause that its predicate implies, the trait clause `parent`: the one at a place of what the trait
    /// states, which stands in the source where `span` says.
    fn child_with_derived_cause(
        &self,
        clause: Clause<I>,
        span: Span<I>,
        parent: Binder<I::Key, TraitPredicate<I::Key, I::Id>>,
        index: usize,
    ) -> Self
        ensures { (m : Meaning I.Key I.Id I.Name) → Self.tree m result ≡ m.clause clause };
}

/// A clause by itself.
impl<I: Interner> Elaboratable<I> for ClauseKey<I::Key> {
    fn predicate(&self, cx: &I) -> Predicate<I> {
        cx.clause_as_predicate(self)
    }

    fn child(&self, clause: Clause<I>) -> Self
        ensures { (m : Meaning I.Key I.Id I.Name) → m.clause result ≡ m.clause clause }
    {
        clause
    }

    fn child_with_derived_cause(
        &self,
        clause: Clause<I>,
        _span: Span<I>,
        _parent: Binder<I::Key, TraitPredicate<I::Key, I::Id>>,
        _index: usize,
    ) -> Self
        ensures { (m : Meaning I.Key I.Id I.Name) → m.clause result ≡ m.clause clause }
    {
        clause
    }
}

/// A clause, and where the clause of a trait that led to it stands in the source.
#[derive(Clone, Copy)]
pub struct ClauseWithSupertraitSpan<X, S> {
    pub clause: ClauseKey<X>,
    pub supertrait_span: S,
}

impl<X, S> ClauseWithSupertraitSpan<X, S> {
    /// The clause with this place.
    pub fn new(clause: ClauseKey<X>, supertrait_span: S) -> ClauseWithSupertraitSpan<X, S>
        ensures clause { result.clause ≡ clause }
        ensures span { result.supertrait_span ≡ supertrait_span }
    {
        ClauseWithSupertraitSpan {
            clause,
            supertrait_span,
        }
    }
}

impl<I: Interner> HasTree<I> for ClauseWithSupertraitSpan<I::Key, I::Span> {
    ghost tree = { λ m c. m.clause c.clause };

    ghost stays = { λ m n e c h. e.clause c.clause h };
}

/// A child keeps the place; one of what a trait states has the place that is stated with it.
impl<I: Interner> Elaboratable<I> for ClauseWithSupertraitSpan<I::Key, I::Span> {
    fn predicate(&self, cx: &I) -> Predicate<I> {
        cx.clause_as_predicate(&self.clause)
    }

    fn child(&self, clause: Clause<I>) -> Self
        ensures { (m : Meaning I.Key I.Id I.Name) → m.clause result.clause ≡ m.clause clause }
    {
        ClauseWithSupertraitSpan::new(clause, self.supertrait_span)
    }

    fn child_with_derived_cause(
        &self,
        clause: Clause<I>,
        span: Span<I>,
        _parent: Binder<I::Key, TraitPredicate<I::Key, I::Id>>,
        _index: usize,
    ) -> Self
        ensures { (m : Meaning I.Key I.Id I.Name) → m.clause result.clause ≡ m.clause clause }
    {
        ClauseWithSupertraitSpan::new(clause, span)
    }
}
