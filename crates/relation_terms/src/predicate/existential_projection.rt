//! What trait objects say of the items of their traits.
ghost use Rattle.std.specs.Prelude.{◌≡◌, IsTrue, IsSome, IfOk, OnErr};
ghost use Rattle.relation_terms.specs.Trees.{known};
ghost use Rattle.relation_terms.specs.Meaning.{Extends, term_tree};
ghost use Rattle.relation_terms.specs.Predicates.{alias_term_id, item_parent, item_alias};
ghost use Rattle.relation_terms.specs.Edits.{HasSelf};
ghost use Rattle.relation_terms.specs.Edited.{args_tree, KnowsExistentialTrait};
ghost use Rattle.relation_terms.specs.Edited.{KnowsExistentialProjection, KnowsProjection};
ghost use Rattle.relation_terms.specs.Edited.{Declares, IsOfItem, AliasAfterSelf, AliasBehindSelf};
ghost use Rattle.relation_terms.specs.Edited.{FirstWithoutSelf};

use crate::predicate::edits::{args_after_self, args_behind, first_args};
use crate::predicate::parent::{parent_count, parent_of};
use crate::predicate::{
    AliasTerm, ClauseKind, ExistentialPredicate, ExistentialProjection, ExistentialTraitRef,
    ProjectionPredicate,
};
use crate::terms::{
    ArgsKey, Binder, DefId, GenericArg, Interner, OutOfMemory, Term, TermKind, TraitAssocTermId, Ty,
};

impl<X, D> ExistentialProjection<X, D> {
    /// The item with these arguments, which fit it but for the type that implements its trait, and what it is. Upstream
    /// the interner is handed in too, and asserts that.
    pub fn new_from_args(
        def_id: TraitAssocTermId<D>,
        args: ArgsKey<X>,
        term: TermKind<X>,
    ) -> ExistentialProjection<X, D>
        ensures item { result.def_id ≡ def_id }
        ensures arguments { result.args ≡ args }
        ensures comes_to { result.term ≡ term }
    {
        ExistentialProjection { def_id, args, term }
    }
}

impl<X: Copy, D: Copy> ExistentialProjection<X, D> {
    /// The item with a list of these arguments, which fit it but for the type that implements its trait, and what it
    /// is. The interner has to know them and the term.
    ///
    /// Answers `OutOfMemory` where a growth was refused, which leaves the meaning of all keys as it was.
    pub fn new<I: Interner<Key = X, Id = D>>(
        cx: &mut I,
        def_id: TraitAssocTermId<D>,
        args: &[GenericArg<I>],
        term: Term<I>,
    ) -> Result<ExistentialProjection<X, D>, OutOfMemory>
        requires arguments_known { IsTrue (known (args_tree (I.meaning cx.old) args.now)) }
        requires term_known { IsTrue (known (term_tree (I.meaning cx.old) term)) }
        ensures grown { Extends (I.meaning cx.old) (I.meaning cx.new) }
        ensures sure { IfOk result (λ p. KnowsExistentialProjection (I.meaning cx.new) p) }
        ensures item { IfOk result (λ p. p.def_id ≡ def_id) }
        ensures arguments { IfOk result (λ p. (I.meaning cx.new).args p.args ≡ args_tree (I.meaning cx.old) args.now) }
        ensures comes_to { IfOk result (λ p. p.term ≡ term) }
        ensures refused { OnErr result (I.meaning cx.new ≡ I.meaning cx.old) }
    {
        let list = cx.mk_args(args)?;
        Ok(ExistentialProjection {
            def_id,
            args: list,
            term,
        })
    }

    /// The trait that declares the item, with as many of the first arguments as it has generic parameters, but for the
    /// type that implements it. By the interner's tables a trait has to declare the item, and the interner to know the
    /// projection.
    ///
    /// Answers `OutOfMemory` where a growth was refused, which leaves the meaning of all keys as it was.
    pub fn trait_ref<I: Interner<Key = X, Id = D>>(
        &self,
        cx: &mut I,
    ) -> Result<ExistentialTraitRef<X, D>, OutOfMemory>
        requires projection_known { KnowsExistentialProjection (I.meaning cx.old) self.now }
        requires declared { IsSome (item_parent (I.meaning cx.old) ((self.now).def_id).0) }
        ensures grown { Extends (I.meaning cx.old) (I.meaning cx.new) }
        ensures sure { IfOk result (λ t. KnowsExistentialTrait (I.meaning cx.new) t) }
        ensures item { IfOk result (λ t. Declares (I.meaning cx.old) t.def_id ((self.now).def_id).0) }
        ensures arguments { IfOk result (λ t. FirstWithoutSelf I.meaning cx.old cx.new self.now t.args) }
        ensures refused { OnErr result (I.meaning cx.new ≡ I.meaning cx.old) }
    {
        let trait_id = parent_of(cx, &self.def_id);
        let count = parent_count(cx, &self.def_id).saturating_sub(1);
        let args = first_args(cx, &self.args, count)?;
        Ok(ExistentialTraitRef {
            def_id: trait_id,
            args,
        })
    }

    /// The item's alias, with a type that implements its trait as the first argument, and what it comes to. By the
    /// interner's tables the item has to be an alias, and the interner to know the projection and the type. No variable
    /// of the type may be bound outside of it, since a binder around the projection would capture it.
    ///
    /// Answers `OutOfMemory` where a growth was refused, which leaves the meaning of all keys as it was.
    pub fn with_self_ty<I: Interner<Key = X, Id = D>>(
        &self,
        cx: &mut I,
        self_ty: Ty<I>,
    ) -> Result<ProjectionPredicate<X, D>, OutOfMemory>
        requires self_known { IsTrue (known ((I.meaning cx.old).ty self_ty)) }
        requires projection_known { KnowsExistentialProjection (I.meaning cx.old) self.now }
        requires is_alias { IsSome (item_alias (I.meaning cx.old) ((self.now).def_id).0) }
        ensures grown { Extends (I.meaning cx.old) (I.meaning cx.new) }
        ensures sure { IfOk result (λ p. KnowsProjection (I.meaning cx.new) p) }
        ensures item { IfOk result (λ p. IsOfItem (I.meaning cx.old) self.now p) }
        ensures arguments { IfOk result (λ p. AliasAfterSelf I.meaning cx.old cx.new self_ty self.now p) }
        ensures comes_to { IfOk result (λ p. p.term ≡ (self.now).term) }
        ensures refused { OnErr result (I.meaning cx.new ≡ I.meaning cx.old) }
    {
        let alias = AliasTerm::new_from_def_id(cx, &DefId(self.def_id.0), self.args);
        let args = args_after_self(cx, self_ty, &self.args)?;
        Ok(ProjectionPredicate {
            projection_term: alias.with_args(args),
            term: self.term,
        })
    }

    /// What the predicate says of its item, without the first argument, which has to be a type, the one that implements
    /// the trait. The interner has to know the predicate, whose alias is to be a projection.
    ///
    /// Answers `OutOfMemory` where a growth was refused, which leaves the meaning of all keys as it was.
    pub fn erase_self_ty<I: Interner<Key = X, Id = D>>(
        cx: &mut I,
        predicate: &ProjectionPredicate<X, D>,
    ) -> Result<ExistentialProjection<X, D>, OutOfMemory>
        requires predicate_known { KnowsProjection (I.meaning cx.old) predicate.now }
        requires has_self { HasSelf ((I.meaning cx.old).args ((predicate.now).projection_term).args) }
        ensures grown { Extends (I.meaning cx.old) (I.meaning cx.new) }
        ensures sure { IfOk result (λ p. KnowsExistentialProjection (I.meaning cx.new) p) }
        ensures item { IfOk result (λ p. (p.def_id).0 ≡ alias_term_id ((predicate.now).projection_term).kind) }
        ensures arguments { IfOk result (λ p. AliasBehindSelf I.meaning cx.old cx.new predicate.now p) }
        ensures comes_to { IfOk result (λ p. p.term ≡ (predicate.now).term) }
        ensures refused { OnErr result (I.meaning cx.new ≡ I.meaning cx.old) }
    {
        let item = predicate.projection_term.def_id();
        let args = args_behind(cx, &predicate.projection_term.args, 1)?;
        Ok(ExistentialProjection {
            def_id: TraitAssocTermId(item.0),
            args,
            term: predicate.term,
        })
    }
}

impl<X: Copy, D: Copy> Binder<X, ExistentialProjection<X, D>> {
    /// The item's alias, with a type that implements its trait as the first argument, and what it comes to, under the
    /// same binder. By the interner's tables the item has to be an alias, and the interner to know the projection and
    /// the type. No variable of the type may be bound outside of it, since the binder would capture it.
    ///
    /// Answers `OutOfMemory` where a growth was refused, which leaves the meaning of all keys as it was.
    pub fn with_self_ty<I: Interner<Key = X, Id = D>>(
        &self,
        cx: &mut I,
        self_ty: Ty<I>,
    ) -> Result<Binder<X, ProjectionPredicate<X, D>>, OutOfMemory>
        requires self_known { IsTrue (known ((I.meaning cx.old).ty self_ty)) }
        requires projection_known { KnowsExistentialProjection (I.meaning cx.old) (self.now).value }
        requires is_alias { IsSome (item_alias (I.meaning cx.old) (((self.now).value).def_id).0) }
        ensures grown { Extends (I.meaning cx.old) (I.meaning cx.new) }
        ensures sure { IfOk result (λ b. KnowsProjection (I.meaning cx.new) b.value) }
        ensures binder { IfOk result (λ b. b.bound_vars ≡ (self.now).bound_vars) }
        ensures item { IfOk result (λ b. IsOfItem (I.meaning cx.old) (self.now).value b.value) }
        ensures arguments { IfOk result (λ b. AliasAfterSelf I.meaning cx.old cx.new self_ty (self.now).value b.value) }
        ensures comes_to { IfOk result (λ b. (b.value).term ≡ ((self.now).value).term) }
        ensures refused { OnErr result (I.meaning cx.new ≡ I.meaning cx.old) }
    {
        let value = self.value.with_self_ty(cx, self_ty)?;
        Ok(Binder {
            value,
            bound_vars: self.bound_vars,
        })
    }

    /// The id of the item.
    pub fn item_def_id(&self) -> TraitAssocTermId<D>
        ensures { result ≡ ((self.now).value).def_id }
    {
        self.value.def_id
    }
}
