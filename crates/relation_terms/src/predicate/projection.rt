//! Predicates that say what an alias comes to.
ghost use Rattle.std.specs.Prelude.{◌≡◌, IsTrue, IfOk, OnErr};
ghost use Rattle.relation_terms.specs.Trees.{known};
ghost use Rattle.relation_terms.specs.Meaning.{Extends};
ghost use Rattle.relation_terms.specs.Predicates.{alias_term_kind, alias_term_id, alias_term_tree};
ghost use Rattle.relation_terms.specs.Edits.{HasSelf};
ghost use Rattle.relation_terms.specs.Aliases.{IsProjection, IsProjectionKind};
ghost use Rattle.relation_terms.specs.Edited.{KnowsProjection, KnowsNormalizesTo, IsSelf, Declares};
ghost use Rattle.relation_terms.specs.Edited.{ProjectionOtherSelf, NormalizesOtherSelf};

use crate::predicate::{ClauseKind, NormalizesTo, PredicateKind, ProjectionPredicate};
use crate::terms::{Binder, DefId, Interner, OutOfMemory, TermKind, TraitAssocTermId, TraitId, Ty};

impl<X: Copy, D: Copy> ProjectionPredicate<X, D> {
    /// The first argument of the alias, which has to be a type. The interner has to know the alias, and knows the type
    /// too.
    pub fn self_ty<I: Interner<Key = X, Id = D>>(&self, cx: &I) -> Ty<I>
        requires alias_known { IsTrue (known (alias_term_tree (I.meaning cx.now) (self.now).projection_term)) }
        requires has_self { HasSelf ((I.meaning cx.now).args ((self.now).projection_term).args) }
        ensures sure { IsTrue (known ((I.meaning cx.now).ty result)) }
        ensures means { IsSelf (I.meaning cx.now) result ((self.now).projection_term).args }
    {
        self.projection_term.self_ty(cx)
    }

    /// The predicate with another type for the first argument of its alias, which has to be a type. The interner has to
    /// know both.
    ///
    /// Answers `OutOfMemory` where a growth was refused, which leaves the meaning of all keys as it was.
    pub fn with_replaced_self_ty<I: Interner<Key = X, Id = D>>(
        &self,
        cx: &mut I,
        self_ty: Ty<I>,
    ) -> Result<ProjectionPredicate<X, D>, OutOfMemory>
        requires self_known { IsTrue (known ((I.meaning cx.old).ty self_ty)) }
        requires predicate_known { KnowsProjection (I.meaning cx.old) self.now }
        requires has_self { HasSelf ((I.meaning cx.old).args ((self.now).projection_term).args) }
        ensures grown { Extends (I.meaning cx.old) (I.meaning cx.new) }
        ensures sure { IfOk result (λ p. KnowsProjection (I.meaning cx.new) p) }
        ensures item { IfOk result (λ p. (p.projection_term).kind ≡ ((self.now).projection_term).kind) }
        ensures arguments { IfOk result (λ p. ProjectionOtherSelf I.meaning cx.old cx.new self_ty self.now p) }
        ensures comes_to { IfOk result (λ p. p.term ≡ (self.now).term) }
        ensures refused { OnErr result (I.meaning cx.new ≡ I.meaning cx.old) }
    {
        let alias = self.projection_term.with_replaced_self_ty(cx, self_ty)?;
        Ok(ProjectionPredicate {
            projection_term: alias,
            term: self.term,
        })
    }

    /// The trait that declares the item. The alias has to be a projection, of an item that a trait declares.
    pub fn trait_def_id<I: Interner<Key = X, Id = D>>(&self, cx: &I) -> TraitId<D>
        requires { IsProjection (I.meaning cx.now) (self.now).projection_term }
        ensures { Declares (I.meaning cx.now) result (alias_term_id ((self.now).projection_term).kind) }
    {
        self.projection_term.trait_def_id(cx)
    }

    /// The id of the item that the alias is. It has to be a projection.
    pub fn def_id(&self) -> TraitAssocTermId<D>
        requires { IsProjectionKind (alias_term_kind ((self.now).projection_term).kind) }
        ensures { result.0 ≡ alias_term_id ((self.now).projection_term).kind }
    {
        self.projection_term.kind.expect_projection()
    }
}

impl<X: Copy, D: Copy> Binder<X, ProjectionPredicate<X, D>> {
    /// The trait that declares the item. The alias has to be a projection, of an item that a trait declares.
    pub fn trait_def_id<I: Interner<Key = X, Id = D>>(&self, cx: &I) -> TraitId<D>
        requires { IsProjection (I.meaning cx.now) ((self.now).value).projection_term }
        ensures { Declares (I.meaning cx.now) result (alias_term_id (((self.now).value).projection_term).kind) }
    {
        self.value.trait_def_id(cx)
    }

    /// The term that the alias comes to, under the same binder.
    pub fn term(&self) -> Binder<X, TermKind<X>>
        ensures value { result.value ≡ ((self.now).value).term }
        ensures binder { result.bound_vars ≡ (self.now).bound_vars }
    {
        Binder {
            value: self.value.term,
            bound_vars: self.bound_vars,
        }
    }

    /// The id of the item that the alias is.
    pub fn item_def_id(&self) -> DefId<D>
        ensures { result.0 ≡ alias_term_id (((self.now).value).projection_term).kind }
    {
        self.value.projection_term.def_id()
    }
}

impl<X: Copy, D: Copy> NormalizesTo<X, D> {
    /// The first argument of the alias, which has to be a type. The interner has to know the alias, and knows the type
    /// too.
    pub fn self_ty<I: Interner<Key = X, Id = D>>(&self, cx: &I) -> Ty<I>
        requires alias_known { IsTrue (known (alias_term_tree (I.meaning cx.now) (self.now).alias)) }
        requires has_self { HasSelf ((I.meaning cx.now).args ((self.now).alias).args) }
        ensures sure { IsTrue (known ((I.meaning cx.now).ty result)) }
        ensures means { IsSelf (I.meaning cx.now) result ((self.now).alias).args }
    {
        self.alias.self_ty(cx)
    }

    /// The predicate with another type for the first argument of its alias, which has to be a type. The interner has to
    /// know both.
    ///
    /// Answers `OutOfMemory` where a growth was refused, which leaves the meaning of all keys as it was.
    pub fn with_replaced_self_ty<I: Interner<Key = X, Id = D>>(
        &self,
        cx: &mut I,
        self_ty: Ty<I>,
    ) -> Result<NormalizesTo<X, D>, OutOfMemory>
        requires self_known { IsTrue (known ((I.meaning cx.old).ty self_ty)) }
        requires predicate_known { KnowsNormalizesTo (I.meaning cx.old) self.now }
        requires has_self { HasSelf ((I.meaning cx.old).args ((self.now).alias).args) }
        ensures grown { Extends (I.meaning cx.old) (I.meaning cx.new) }
        ensures sure { IfOk result (λ p. KnowsNormalizesTo (I.meaning cx.new) p) }
        ensures item { IfOk result (λ p. (p.alias).kind ≡ ((self.now).alias).kind) }
        ensures arguments { IfOk result (λ p. NormalizesOtherSelf I.meaning cx.old cx.new self_ty self.now p) }
        ensures comes_to { IfOk result (λ p. p.term ≡ (self.now).term) }
        ensures refused { OnErr result (I.meaning cx.new ≡ I.meaning cx.old) }
    {
        let alias = self.alias.with_replaced_self_ty(cx, self_ty)?;
        Ok(NormalizesTo {
            alias,
            term: self.term,
        })
    }

    /// The trait that declares the item. The alias has to be a projection, of an item that a trait declares.
    pub fn trait_def_id<I: Interner<Key = X, Id = D>>(&self, cx: &I) -> TraitId<D>
        requires { IsProjection (I.meaning cx.now) (self.now).alias }
        ensures { Declares (I.meaning cx.now) result (alias_term_id ((self.now).alias).kind) }
    {
        self.alias.trait_def_id(cx)
    }

    /// The id of the item that the alias is.
    pub fn def_id(&self) -> DefId<D>
        ensures { result.0 ≡ alias_term_id ((self.now).alias).kind }
    {
        self.alias.def_id()
    }
}
