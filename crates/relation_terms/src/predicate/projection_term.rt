//! What is read of the aliases of associated items, and other arguments for them.
ghost use Rattle.std.specs.Prelude.{◌≡◌, IsTrue, IfOk, OnErr};
ghost use Rattle.relation_terms.specs.Trees.{known};
ghost use Rattle.relation_terms.specs.Meaning.{Extends};
ghost use Rattle.relation_terms.specs.Predicates.{alias_term_kind, alias_term_id, alias_term_tree};
ghost use Rattle.relation_terms.specs.Predicates.{trait_ref_tree};
ghost use Rattle.relation_terms.specs.Edits.{HasSelf};
ghost use Rattle.relation_terms.specs.Aliases.{IsProjection, IsInherentKind};
ghost use Rattle.relation_terms.specs.Edited.{args_tree, own_args, IsSelf, Declares, OtherSelf};
ghost use Rattle.relation_terms.specs.Edited.{FirstOfParent, RebasedArgs};

use crate::predicate::edits::{args_behind, args_with_self, first_args, join_args, self_of};
use crate::predicate::parent::{parent_count, parent_of};
use crate::predicate::{AliasTerm, TraitRef};
use crate::terms::{GenericArg, GenericArgs, Interner, OutOfMemory, TraitId, Ty};

impl<X: Copy, D: Copy> AliasTerm<X, D> {
    /// The first argument, which has to be a type. The interner has to know the alias, and knows the type too.
    pub fn self_ty<I: Interner<Key = X, Id = D>>(&self, cx: &I) -> Ty<I>
        requires alias_known { IsTrue (known (alias_term_tree (I.meaning cx.now) self.now)) }
        requires has_self { HasSelf ((I.meaning cx.now).args (self.now).args) }
        ensures sure { IsTrue (known ((I.meaning cx.now).ty result)) }
        ensures means { IsSelf (I.meaning cx.now) result (self.now).args }
    {
        self_of(cx, &self.args)
    }

    /// The alias with another type for its first argument, which has to be a type. The interner has to know both.
    ///
    /// Answers `OutOfMemory` where a growth was refused, which leaves the meaning of all keys as it was.
    pub fn with_replaced_self_ty<I: Interner<Key = X, Id = D>>(
        &self,
        cx: &mut I,
        self_ty: Ty<I>,
    ) -> Result<AliasTerm<X, D>, OutOfMemory>
        requires self_known { IsTrue (known ((I.meaning cx.old).ty self_ty)) }
        requires alias_known { IsTrue (known (alias_term_tree (I.meaning cx.old) self.now)) }
        requires has_self { HasSelf ((I.meaning cx.old).args (self.now).args) }
        ensures grown { Extends (I.meaning cx.old) (I.meaning cx.new) }
        ensures sure { IfOk result (λ t. IsTrue (known (alias_term_tree (I.meaning cx.new) t))) }
        ensures item { IfOk result (λ t. t.kind ≡ (self.now).kind) }
        ensures arguments { IfOk result (λ t. OtherSelf I.meaning cx.old cx.new self_ty (self.now).args t.args) }
        ensures refused { OnErr result (I.meaning cx.new ≡ I.meaning cx.old) }
    {
        let args = args_with_self(cx, &self.args, self_ty)?;
        Ok(AliasTerm {
            kind: self.kind,
            args,
        })
    }

    /// The trait that declares the item. The alias has to be a projection, of an item that a trait declares.
    pub fn trait_def_id<I: Interner<Key = X, Id = D>>(&self, cx: &I) -> TraitId<D>
        requires { IsProjection (I.meaning cx.now) self.now }
        ensures { Declares (I.meaning cx.now) result (alias_term_id (self.now).kind) }
    {
        parent_of(cx, &self.kind.expect_projection())
    }

    /// The trait that declares the item, with as many of the first arguments as it has generic parameters, and the
    /// arguments behind them, the item's own. The alias has to be a projection, and the interner to know it.
    ///
    /// Answers `OutOfMemory` where a growth was refused. What was known then keeps its meaning; the trait's arguments
    /// may have been made.
    pub fn trait_ref_and_own_args<I: Interner<Key = X, Id = D>>(
        &self,
        cx: &mut I,
    ) -> Result<(TraitRef<X, D>, GenericArgs<I>), OutOfMemory>
        requires alias_known { IsTrue (known (alias_term_tree (I.meaning cx.old) self.now)) }
        requires projection { IsProjection (I.meaning cx.old) self.now }
        ensures grown { Extends (I.meaning cx.old) (I.meaning cx.new) }
        ensures sure { IfOk result (λ p. IsTrue (known (trait_ref_tree (I.meaning cx.new) p.0))) }
        ensures sure_own { IfOk result (λ p. IsTrue (known ((I.meaning cx.new).args p.1))) }
        ensures item { IfOk result (λ p. Declares (I.meaning cx.old) (p.0).def_id (alias_term_id (self.now).kind)) }
        ensures arguments { IfOk result (λ p. FirstOfParent I.meaning cx.old cx.new self.now (p.0).args) }
        ensures own { IfOk result (λ p. (I.meaning cx.new).args p.1 ≡ own_args (I.meaning cx.old) self.now) }
    {
        let def_id = self.kind.expect_projection();
        let count = parent_count(cx, &def_id);
        let trait_ref = self.trait_ref(cx)?;
        let own = args_behind(cx, &self.args, count)?;
        Ok((trait_ref, own))
    }

    /// The trait that declares the item, with as many of the first arguments as it has generic parameters. The alias
    /// has to be a projection, and the interner to know it.
    ///
    /// Answers `OutOfMemory` where a growth was refused, which leaves the meaning of all keys as it was.
    pub fn trait_ref<I: Interner<Key = X, Id = D>>(
        &self,
        cx: &mut I,
    ) -> Result<TraitRef<X, D>, OutOfMemory>
        requires alias_known { IsTrue (known (alias_term_tree (I.meaning cx.old) self.now)) }
        requires projection { IsProjection (I.meaning cx.old) self.now }
        ensures grown { Extends (I.meaning cx.old) (I.meaning cx.new) }
        ensures sure { IfOk result (λ t. IsTrue (known (trait_ref_tree (I.meaning cx.new) t))) }
        ensures item { IfOk result (λ t. Declares (I.meaning cx.old) t.def_id (alias_term_id (self.now).kind)) }
        ensures arguments { IfOk result (λ t. FirstOfParent I.meaning cx.old cx.new self.now t.args) }
        ensures refused { OnErr result (I.meaning cx.new ≡ I.meaning cx.old) }
    {
        let def_id = self.kind.expect_projection();
        let trait_id = parent_of(cx, &def_id);
        let count = parent_count(cx, &def_id);
        let args = first_args(cx, &self.args, count)?;
        Ok(TraitRef {
            def_id: trait_id,
            args,
        })
    }

    /// The item's own arguments, which stand behind those of the trait that declares it. The alias has to be a
    /// projection, and the interner to know it.
    pub fn own_args<'a, I: Interner<Key = X, Id = D>>(&self, cx: &'a I) -> &'a [GenericArg<I>]
        requires alias_known { IsTrue (known (alias_term_tree (I.meaning cx.now) self.now)) }
        requires projection { IsProjection (I.meaning cx.now) self.now }
        ensures { args_tree (I.meaning cx.now) result.now ≡ own_args (I.meaning cx.now) self.now }
    {
        let count = parent_count(cx, &self.kind.expect_projection());
        let list = cx.args(&self.args);
        if list.len() <= count {
            return &list[list.len()..];
        }
        &list[count..]
    }

    /// The arguments of an impl, then the alias's own ones, all but the first, which is the type that the impl is of.
    /// The alias has to be of an inherent impl, and the interner to know both.
    ///
    /// Answers `OutOfMemory` where a growth was refused, which leaves the meaning of all keys as it was.
    pub fn rebase_inherent_args_onto_impl<I: Interner<Key = X, Id = D>>(
        &self,
        impl_args: &GenericArgs<I>,
        cx: &mut I,
    ) -> Result<GenericArgs<I>, OutOfMemory>
        requires impl_known { IsTrue (known ((I.meaning cx.old).args impl_args.now)) }
        requires alias_known { IsTrue (known (alias_term_tree (I.meaning cx.old) self.now)) }
        requires inherent { IsInherentKind (alias_term_kind (self.now).kind) }
        ensures grown { Extends (I.meaning cx.old) (I.meaning cx.new) }
        ensures sure { IfOk result (λ k. IsTrue (known ((I.meaning cx.new).args k))) }
        ensures arguments { IfOk result (λ k. RebasedArgs I.meaning cx.old cx.new impl_args.now self.now k) }
        ensures refused { OnErr result (I.meaning cx.new ≡ I.meaning cx.old) }
    {
        let mut given = Vec::new(cx.alloc());
        given.extend_from_slice(cx.args(impl_args))?;
        join_args(cx, given, &self.args, 1)
    }
}
