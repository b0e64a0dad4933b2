//! What a trait object implements.
ghost use Rattle.std.specs.Prelude.{◌≡◌, IsTrue, IfOk, OnErr};
ghost use Rattle.relation_terms.specs.Trees.{known};
ghost use Rattle.relation_terms.specs.Meaning.{Extends};
ghost use Rattle.relation_terms.specs.Predicates.{trait_ref_tree};
ghost use Rattle.relation_terms.specs.Edits.{HasSelf};
ghost use Rattle.relation_terms.specs.Edited.{args_tree, KnowsExistentialTrait, BehindSelf};
ghost use Rattle.relation_terms.specs.Edited.{TraitAfterSelf};

use crate::predicate::TraitRef;
use crate::predicate::edits::{args_after_self, args_behind};
use crate::terms::{
    ArgsKey, Binder, GenericArg, Interner, Keys, OutOfMemory, TermKind, TraitAssocTermId, TraitId,
    Ty,
};
use std::alloc::AllocError;

/// What a trait object implements: a trait, without the object's own type; a projection of one; or an auto trait.
#[derive(PartialEq, Eq, Hash)]
pub enum ExistentialPredicate<X, D> {
    Trait(ExistentialTraitRef<X, D>),
    Projection(ExistentialProjection<X, D>),
    AutoTrait(TraitId<D>),
}

/// A trait with its arguments but for the type that implements it.
#[derive(Clone, Copy, PartialEq, Eq, Hash)]
pub struct ExistentialTraitRef<X, D> {
    pub def_id: TraitId<D>,
    pub args: ArgsKey<X>,
}

impl<X, D> ExistentialTraitRef<X, D> {
    /// The trait with these arguments, which fit it but for the type that implements it. Upstream the interner is
    /// handed in too, and asserts that.
    pub fn new_from_args(trait_def_id: TraitId<D>, args: ArgsKey<X>) -> ExistentialTraitRef<X, D>
        ensures item { result.def_id ≡ trait_def_id }
        ensures arguments { result.args ≡ args }
    {
        ExistentialTraitRef {
            def_id: trait_def_id,
            args,
        }
    }
}

/// What an associated type or constant of a trait is, with its arguments but for the type that implements the trait.
#[derive(PartialEq, Eq, Hash)]
pub struct ExistentialProjection<X, D> {
    pub def_id: TraitAssocTermId<D>,
    pub args: ArgsKey<X>,
    pub term: TermKind<X>,
}

/// A predicate of an interner's trait object, under its binder.
pub type ObjectPredicate<I> = Binder<
    <I as Keys>::Key,
    ExistentialPredicate<<I as Keys>::Key, <I as Keys>::Id>,
>;

impl<X: Copy, D: Copy> ExistentialTraitRef<X, D> {
    /// The trait with a list of these arguments, which fit it but for the type that implements it. The interner has to
    /// know them.
    ///
    /// Answers `OutOfMemory` where a growth was refused, which leaves the meaning of all keys as it was.
    pub fn new<I: Interner<Key = X, Id = D>>(
        cx: &mut I,
        trait_def_id: TraitId<D>,
        args: &[GenericArg<I>],
    ) -> Result<ExistentialTraitRef<X, D>, OutOfMemory>
        requires { IsTrue (known (args_tree (I.meaning cx.old) args.now)) }
        ensures grown { Extends (I.meaning cx.old) (I.meaning cx.new) }
        ensures sure { IfOk result (λ t. KnowsExistentialTrait (I.meaning cx.new) t) }
        ensures item { IfOk result (λ t. t.def_id ≡ trait_def_id) }
        ensures arguments { IfOk result (λ t. (I.meaning cx.new).args t.args ≡ args_tree (I.meaning cx.old) args.now) }
        ensures refused { OnErr result (I.meaning cx.new ≡ I.meaning cx.old) }
    {
        let list = cx.mk_args(args)?;
        Ok(ExistentialTraitRef {
            def_id: trait_def_id,
            args: list,
        })
    }

    /// The trait without the first argument, which has to be a type, the one that implements it. The interner has to
    /// know the trait reference.
    ///
    /// Answers `OutOfMemory` where a growth was refused, which leaves the meaning of all keys as it was.
    pub fn erase_self_ty<I: Interner<Key = X, Id = D>>(
        cx: &mut I,
        trait_ref: &TraitRef<X, D>,
    ) -> Result<ExistentialTraitRef<X, D>, OutOfMemory>
        requires trait_known { IsTrue (known (trait_ref_tree (I.meaning cx.old) trait_ref.now)) }
        requires has_self { HasSelf ((I.meaning cx.old).args (trait_ref.now).args) }
        ensures grown { Extends (I.meaning cx.old) (I.meaning cx.new) }
        ensures sure { IfOk result (λ t. KnowsExistentialTrait (I.meaning cx.new) t) }
        ensures item { IfOk result (λ t. t.def_id ≡ (trait_ref.now).def_id) }
        ensures arguments { IfOk result (λ t. BehindSelf I.meaning cx.old cx.new (trait_ref.now).args t.args) }
        ensures refused { OnErr result (I.meaning cx.new ≡ I.meaning cx.old) }
    {
        let args = args_behind(cx, &trait_ref.args, 1)?;
        Ok(ExistentialTraitRef {
            def_id: trait_ref.def_id,
            args,
        })
    }

    /// The trait with a type that implements it as the first argument. The interner has to know both, and no variable
    /// of the type may be bound outside of it, since a binder around the trait would capture it.
    ///
    /// Answers `OutOfMemory` where a growth was refused, which leaves the meaning of all keys as it was.
    pub fn with_self_ty<I: Interner<Key = X, Id = D>>(
        &self,
        cx: &mut I,
        self_ty: Ty<I>,
    ) -> Result<TraitRef<X, D>, OutOfMemory>
        requires self_known { IsTrue (known ((I.meaning cx.old).ty self_ty)) }
        requires trait_known { KnowsExistentialTrait (I.meaning cx.old) self.now }
        ensures grown { Extends (I.meaning cx.old) (I.meaning cx.new) }
        ensures sure { IfOk result (λ t. IsTrue (known (trait_ref_tree (I.meaning cx.new) t))) }
        ensures item { IfOk result (λ t. t.def_id ≡ (self.now).def_id) }
        ensures arguments { IfOk result (λ t. TraitAfterSelf I.meaning cx.old cx.new self_ty self.now t) }
        ensures refused { OnErr result (I.meaning cx.new ≡ I.meaning cx.old) }
    {
        let args = args_after_self(cx, self_ty, &self.args)?;
        Ok(TraitRef {
            def_id: self.def_id,
            args,
        })
    }
}

impl<X: Copy, D: Copy> Binder<X, ExistentialTraitRef<X, D>> {
    /// The id of the trait.
    pub fn def_id(&self) -> TraitId<D>
        ensures { result ≡ ((self.now).value).def_id }
    {
        self.value.def_id
    }

    /// The trait with a type that implements it as the first argument, under the same binder. The interner has to know
    /// both, and no variable of the type may be bound outside of it, since the binder would capture it.
    ///
    /// Answers `OutOfMemory` where a growth was refused, which leaves the meaning of all keys as it was.
    pub fn with_self_ty<I: Interner<Key = X, Id = D>>(
        &self,
        cx: &mut I,
        self_ty: Ty<I>,
    ) -> Result<Binder<X, TraitRef<X, D>>, OutOfMemory>
        requires self_known { IsTrue (known ((I.meaning cx.old).ty self_ty)) }
        requires trait_known { KnowsExistentialTrait (I.meaning cx.old) (self.now).value }
        ensures grown { Extends (I.meaning cx.old) (I.meaning cx.new) }
        ensures sure { IfOk result (λ b. IsTrue (known (trait_ref_tree (I.meaning cx.new) b.value))) }
        ensures binder { IfOk result (λ b. b.bound_vars ≡ (self.now).bound_vars) }
        ensures item { IfOk result (λ b. (b.value).def_id ≡ ((self.now).value).def_id) }
        ensures arguments { IfOk result (λ b. TraitAfterSelf I.meaning cx.old cx.new self_ty (self.now).value b.value) }
        ensures refused { OnErr result (I.meaning cx.new ≡ I.meaning cx.old) }
    {
        let value = self.value.with_self_ty(cx, self_ty)?;
        Ok(Binder {
            value,
            bound_vars: self.bound_vars,
        })
    }
}

impl<X: Copy, D: Copy> Clone for ExistentialPredicate<X, D> {
    ghost is_clone = { λ source copy. copy ≡ source };

    ghost is_infallible = { λ _. Unit {0} };

    fn clone(&self) -> Result<Self, AllocError> {
        Ok(*self)
    }
}

impl<X: Copy, D: Copy> Copy for ExistentialPredicate<X, D> {}

impl<X: Copy, D: Copy> Clone for ExistentialProjection<X, D> {
    ghost is_clone = { λ source copy. copy ≡ source };

    ghost is_infallible = { λ _. Unit {0} };

    fn clone(&self) -> Result<Self, AllocError> {
        Ok(*self)
    }
}

impl<X: Copy, D: Copy> Copy for ExistentialProjection<X, D> {}
