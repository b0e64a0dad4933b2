//! Traits with their arguments, and what predicates say of them.
ghost use Rattle.std.specs.Prelude.{◌≡◌, IsTrue, IfOk, OnErr};
ghost use Rattle.relation_terms.specs.Trees.{known};
ghost use Rattle.relation_terms.specs.Meaning.{Extends};
ghost use Rattle.relation_terms.specs.Predicates.{trait_ref_tree};
ghost use Rattle.relation_terms.specs.Owned.{bound_tree};
ghost use Rattle.relation_terms.specs.Edits.{HasSelf};
ghost use Rattle.relation_terms.specs.Edited.{args_tree, IsSelf, OtherSelf, TraitOtherSelf};
ghost use Rattle.relation_terms.specs.Edited.{HostEffectOtherSelf, FirstOfTrait, IdentityArgs};
ghost use Rattle.relation_terms.specs.Edited.{IsHostEffectClause};

use crate::predicate::ClauseKind;
use crate::predicate::edits::{args_with_self, first_args, self_of};
use crate::predicate::item_args::identity_args;
use crate::terms::{
    ArgsKey, Binder, BoundConstness, Clause, DefId, GenericArg, GenericArgs, Interner, OutOfMemory,
    PredicatePolarity, TraitId, Ty,
};

/// A trait with its arguments, of which the first is the type that implements it.
#[derive(Clone, Copy, PartialEq, Eq, Hash)]
pub struct TraitRef<X, D> {
    pub def_id: TraitId<D>,
    pub args: ArgsKey<X>,
}

/// A trait is implemented, or, where the polarity is negative, it is not.
#[derive(Clone, Copy, PartialEq, Eq, Hash)]
pub struct TraitPredicate<X, D> {
    pub trait_ref: TraitRef<X, D>,
    pub polarity: PredicatePolarity,
}

/// A trait is implemented so that its functions can be called in const contexts.
#[derive(Clone, Copy, PartialEq, Eq, Hash)]
pub struct HostEffectPredicate<X, D> {
    pub trait_ref: TraitRef<X, D>,
    pub constness: BoundConstness,
}

impl<X: Copy, D: Copy> TraitRef<X, D> {
    /// The trait with these arguments, which fit it. Upstream the interner is handed in too, and asserts that.
    pub fn new_from_args(trait_def_id: TraitId<D>, args: ArgsKey<X>) -> TraitRef<X, D>
        ensures item { result.def_id ≡ trait_def_id }
        ensures arguments { result.args ≡ args }
    {
        TraitRef {
            def_id: trait_def_id,
            args,
        }
    }

    /// The trait with the list of these arguments, which fit it.
    ///
    /// The interner has to know them. Answers `OutOfMemory` where a growth was refused, which leaves the meaning of all
    /// keys as it was.
    pub fn new<I: Interner<Key = X, Id = D>>(
        cx: &mut I,
        trait_def_id: TraitId<D>,
        args: &[GenericArg<I>],
    ) -> Result<TraitRef<X, D>, OutOfMemory>
        requires { IsTrue (known (args_tree (I.meaning cx.old) args.now)) }
        ensures grown { Extends (I.meaning cx.old) (I.meaning cx.new) }
        ensures sure { IfOk result (λ t. IsTrue (known (trait_ref_tree (I.meaning cx.new) t))) }
        ensures item { IfOk result (λ t. t.def_id ≡ trait_def_id) }
        ensures arguments { IfOk result (λ t. (I.meaning cx.new).args t.args ≡ args_tree (I.meaning cx.old) args.now) }
        ensures refused { OnErr result (I.meaning cx.new ≡ I.meaning cx.old) }
    {
        let args = cx.mk_args(args)?;
        Ok(TraitRef::new_from_args(trait_def_id, args))
    }

    /// The trait of an item of it, whose arguments these are: the trait's own stand first among them.
    ///
    /// The interner has to know the arguments. Answers `OutOfMemory` where a growth was refused, which leaves the
    /// meaning of all keys as it was.
    pub fn from_assoc<I: Interner<Key = X, Id = D>>(
        cx: &mut I,
        trait_id: TraitId<D>,
        args: &GenericArgs<I>,
    ) -> Result<TraitRef<X, D>, OutOfMemory>
        requires { IsTrue (known ((I.meaning cx.old).args args.now)) }
        ensures grown { Extends (I.meaning cx.old) (I.meaning cx.new) }
        ensures sure { IfOk result (λ t. IsTrue (known (trait_ref_tree (I.meaning cx.new) t))) }
        ensures item { IfOk result (λ t. t.def_id ≡ trait_id) }
        ensures arguments { IfOk result (λ t. FirstOfTrait I.meaning cx.old cx.new trait_id args.now t.args) }
        ensures refused { OnErr result (I.meaning cx.new ≡ I.meaning cx.old) }
    {
        let count = cx.generics_count(&DefId(trait_id.0));
        let first = first_args(cx, args, count)?;
        Ok(TraitRef::new_from_args(trait_id, first))
    }

    /// The trait with its own generic parameters, each as itself.
    ///
    /// Answers `OutOfMemory` where a growth was refused, or where there are more parameters than indices. What was
    /// known keeps its meaning, also then.
    pub fn identity<I: Interner<Key = X, Id = D>>(
        cx: &mut I,
        trait_id: TraitId<D>,
    ) -> Result<TraitRef<X, D>, OutOfMemory>
        ensures grown { Extends (I.meaning cx.old) (I.meaning cx.new) }
        ensures sure { IfOk result (λ t. IsTrue (known (trait_ref_tree (I.meaning cx.new) t))) }
        ensures item { IfOk result (λ t. t.def_id ≡ trait_id) }
        ensures arguments { IfOk result (λ t. IdentityArgs I.meaning cx.old cx.new trait_id.0 t.args) }
    {
        let args = identity_args(cx, &DefId(trait_id.0))?;
        Ok(TraitRef::new_from_args(trait_id, args))
    }

    /// The trait with another type in place of the one that implements it.
    ///
    /// The interner has to know both, and the arguments have to begin with a type. Answers `OutOfMemory` where a growth
    /// was refused, which leaves the meaning of all keys as it was.
    pub fn with_replaced_self_ty<I: Interner<Key = X, Id = D>>(
        &self,
        cx: &mut I,
        self_ty: Ty<I>,
    ) -> Result<TraitRef<X, D>, OutOfMemory>
        requires trait_known { IsTrue (known (trait_ref_tree (I.meaning cx.old) self.now)) }
        requires self_known { IsTrue (known ((I.meaning cx.old).ty self_ty)) }
        requires has_self { HasSelf ((I.meaning cx.old).args (self.now).args) }
        ensures grown { Extends (I.meaning cx.old) (I.meaning cx.new) }
        ensures sure { IfOk result (λ t. IsTrue (known (trait_ref_tree (I.meaning cx.new) t))) }
        ensures item { IfOk result (λ t. t.def_id ≡ (self.now).def_id) }
        ensures arguments { IfOk result (λ t. OtherSelf I.meaning cx.old cx.new self_ty (self.now).args t.args) }
        ensures refused { OnErr result (I.meaning cx.new ≡ I.meaning cx.old) }
    {
        let args = args_with_self(cx, &self.args, self_ty)?;
        Ok(TraitRef::new_from_args(self.def_id, args))
    }

    /// The type that implements the trait. The interner has to know the trait reference, whose arguments have to begin
    /// with a type. It takes no memory.
    pub fn self_ty<I: Interner<Key = X, Id = D>>(&self, cx: &I) -> Ty<I>
        requires trait_known { IsTrue (known (trait_ref_tree (I.meaning cx.now) self.now)) }
        requires has_self { HasSelf ((I.meaning cx.now).args (self.now).args) }
        ensures sure { IsTrue (known ((I.meaning cx.now).ty result)) }
        ensures means { IsSelf (I.meaning cx.now) result (self.now).args }
    {
        self_of(cx, &self.args)
    }
}

impl<X: Copy, D: Copy> Binder<X, TraitRef<X, D>> {
    /// The type that implements the trait, under the same binder. The interner has to know the trait reference, whose
    /// arguments have to begin with a type. It takes no memory.
    pub fn self_ty<I: Interner<Key = X, Id = D>>(&self, cx: &I) -> Binder<X, Ty<I>>
        requires trait_known { IsTrue (known (trait_ref_tree (I.meaning cx.now) (self.now).value)) }
        requires has_self { HasSelf ((I.meaning cx.now).args ((self.now).value).args) }
        ensures sure { IsTrue (known ((I.meaning cx.now).ty result.value)) }
        ensures means { IsSelf (I.meaning cx.now) result.value ((self.now).value).args }
        ensures binder { result.bound_vars ≡ (self.now).bound_vars }
    {
        Binder {
            value: self.value.self_ty(cx),
            bound_vars: self.bound_vars,
        }
    }

    /// The trait.
    pub fn def_id(&self) -> TraitId<D>
        ensures { result ≡ ((self.now).value).def_id }
    {
        self.value.def_id
    }

    /// The clause that the trait is implemented in const contexts, under the same binder.
    ///
    /// The interner has to know the trait reference. Answers `OutOfMemory` where a growth was refused, which leaves the
    /// meaning of all keys as it was.
    pub fn to_host_effect_clause<I: Interner<Key = X, Id = D>>(
        self,
        cx: &mut I,
        constness: BoundConstness,
    ) -> Result<Clause<I>, OutOfMemory>
        requires { IsTrue (known (bound_tree (I.meaning cx.old) self)) }
        ensures grown { Extends (I.meaning cx.old) (I.meaning cx.new) }
        ensures sure { IfOk result (λ k. IsTrue (known ((I.meaning cx.new).clause k))) }
        ensures made { IfOk result (λ k. IsHostEffectClause I.meaning cx.old cx.new constness self k) }
        ensures refused { OnErr result (I.meaning cx.new ≡ I.meaning cx.old) }
    {
        let value = ClauseKind::HostEffect(HostEffectPredicate {
            trait_ref: self.value,
            constness,
        });
        cx.mk_clause(Binder {
            value,
            bound_vars: self.bound_vars,
        })
    }
}

impl<X: Copy, D: Copy> TraitPredicate<X, D> {
    /// The predicate that a trait is implemented.
    pub fn from_trait_ref(trait_ref: TraitRef<X, D>) -> TraitPredicate<X, D>
        ensures same { result.trait_ref ≡ trait_ref }
        ensures positive { result.polarity ≡ PredicatePolarity.Positive }
    {
        TraitPredicate {
            trait_ref,
            polarity: PredicatePolarity::Positive,
        }
    }

    /// The predicate of another type, in place of the one that implements the trait.
    ///
    /// The interner has to know both, and the arguments have to begin with a type. Answers `OutOfMemory` where a growth
    /// was refused, which leaves the meaning of all keys as it was.
    pub fn with_replaced_self_ty<I: Interner<Key = X, Id = D>>(
        &self,
        cx: &mut I,
        self_ty: Ty<I>,
    ) -> Result<TraitPredicate<X, D>, OutOfMemory>
        requires trait_known { IsTrue (known (trait_ref_tree (I.meaning cx.old) (self.now).trait_ref)) }
        requires self_known { IsTrue (known ((I.meaning cx.old).ty self_ty)) }
        requires has_self { HasSelf ((I.meaning cx.old).args ((self.now).trait_ref).args) }
        ensures grown { Extends (I.meaning cx.old) (I.meaning cx.new) }
        ensures sure { IfOk result (λ p. IsTrue (known (trait_ref_tree (I.meaning cx.new) p.trait_ref))) }
        ensures item { IfOk result (λ p. (p.trait_ref).def_id ≡ ((self.now).trait_ref).def_id) }
        ensures arguments { IfOk result (λ p. TraitOtherSelf I.meaning cx.old cx.new self_ty self.now p) }
        ensures polarity { IfOk result (λ p. p.polarity ≡ (self.now).polarity) }
        ensures refused { OnErr result (I.meaning cx.new ≡ I.meaning cx.old) }
    {
        let trait_ref = self.trait_ref.with_replaced_self_ty(cx, self_ty)?;
        Ok(TraitPredicate {
            trait_ref,
            polarity: self.polarity,
        })
    }

    /// The trait.
    pub fn def_id(&self) -> TraitId<D>
        ensures { result ≡ ((self.now).trait_ref).def_id }
    {
        self.trait_ref.def_id
    }

    /// The type that implements the trait, or does not. The interner has to know the trait reference, whose arguments
    /// have to begin with a type. It takes no memory.
    pub fn self_ty<I: Interner<Key = X, Id = D>>(&self, cx: &I) -> Ty<I>
        requires trait_known { IsTrue (known (trait_ref_tree (I.meaning cx.now) (self.now).trait_ref)) }
        requires has_self { HasSelf ((I.meaning cx.now).args ((self.now).trait_ref).args) }
        ensures sure { IsTrue (known ((I.meaning cx.now).ty result)) }
        ensures means { IsSelf (I.meaning cx.now) result ((self.now).trait_ref).args }
    {
        self.trait_ref.self_ty(cx)
    }
}

impl<X: Copy, D: Copy> Binder<X, TraitPredicate<X, D>> {
    /// The predicate that a trait is implemented, under the same binder.
    pub fn from_trait_ref(trait_ref: Binder<X, TraitRef<X, D>>) -> Binder<X, TraitPredicate<X, D>>
        ensures same { (result.value).trait_ref ≡ trait_ref.value }
        ensures positive { (result.value).polarity ≡ PredicatePolarity.Positive }
        ensures binder { result.bound_vars ≡ trait_ref.bound_vars }
    {
        Binder {
            value: TraitPredicate::from_trait_ref(trait_ref.value),
            bound_vars: trait_ref.bound_vars,
        }
    }

    /// The trait.
    pub fn def_id(&self) -> TraitId<D>
        ensures { result ≡ (((self.now).value).trait_ref).def_id }
    {
        self.value.trait_ref.def_id
    }

    /// The type that implements the trait, or does not, under the same binder. The interner has to know the trait
    /// reference, whose arguments have to begin with a type. It takes no memory.
    pub fn self_ty<I: Interner<Key = X, Id = D>>(&self, cx: &I) -> Binder<X, Ty<I>>
        requires trait_known { IsTrue (known (trait_ref_tree (I.meaning cx.now) ((self.now).value).trait_ref)) }
        requires has_self { HasSelf ((I.meaning cx.now).args (((self.now).value).trait_ref).args) }
        ensures sure { IsTrue (known ((I.meaning cx.now).ty result.value)) }
        ensures means { IsSelf (I.meaning cx.now) result.value (((self.now).value).trait_ref).args }
        ensures binder { result.bound_vars ≡ (self.now).bound_vars }
    {
        Binder {
            value: self.value.self_ty(cx),
            bound_vars: self.bound_vars,
        }
    }

    /// Whether the trait is implemented, or is not.
    pub fn polarity(&self) -> PredicatePolarity
        ensures { result ≡ ((self.now).value).polarity }
    {
        self.value.polarity
    }
}

impl<X: Copy, D: Copy> HostEffectPredicate<X, D> {
    /// The type that implements the trait. The interner has to know the trait reference, whose arguments have to begin
    /// with a type. It takes no memory.
    pub fn self_ty<I: Interner<Key = X, Id = D>>(&self, cx: &I) -> Ty<I>
        requires trait_known { IsTrue (known (trait_ref_tree (I.meaning cx.now) (self.now).trait_ref)) }
        requires has_self { HasSelf ((I.meaning cx.now).args ((self.now).trait_ref).args) }
        ensures sure { IsTrue (known ((I.meaning cx.now).ty result)) }
        ensures means { IsSelf (I.meaning cx.now) result ((self.now).trait_ref).args }
    {
        self.trait_ref.self_ty(cx)
    }

    /// The predicate of another type, in place of the one that implements the trait.
    ///
    /// The interner has to know both, and the arguments have to begin with a type. Answers `OutOfMemory` where a growth
    /// was refused, which leaves the meaning of all keys as it was.
    pub fn with_replaced_self_ty<I: Interner<Key = X, Id = D>>(
        &self,
        cx: &mut I,
        self_ty: Ty<I>,
    ) -> Result<HostEffectPredicate<X, D>, OutOfMemory>
        requires trait_known { IsTrue (known (trait_ref_tree (I.meaning cx.old) (self.now).trait_ref)) }
        requires self_known { IsTrue (known ((I.meaning cx.old).ty self_ty)) }
        requires has_self { HasSelf ((I.meaning cx.old).args ((self.now).trait_ref).args) }
        ensures grown { Extends (I.meaning cx.old) (I.meaning cx.new) }
        ensures sure { IfOk result (λ p. IsTrue (known (trait_ref_tree (I.meaning cx.new) p.trait_ref))) }
        ensures item { IfOk result (λ p. (p.trait_ref).def_id ≡ ((self.now).trait_ref).def_id) }
        ensures arguments { IfOk result (λ p. HostEffectOtherSelf I.meaning cx.old cx.new self_ty self.now p) }
        ensures constness { IfOk result (λ p. p.constness ≡ (self.now).constness) }
        ensures refused { OnErr result (I.meaning cx.new ≡ I.meaning cx.old) }
    {
        let trait_ref = self.trait_ref.with_replaced_self_ty(cx, self_ty)?;
        Ok(HostEffectPredicate {
            trait_ref,
            constness: self.constness,
        })
    }

    /// The trait.
    pub fn def_id(&self) -> TraitId<D>
        ensures { result ≡ ((self.now).trait_ref).def_id }
    {
        self.trait_ref.def_id
    }
}

impl<X: Copy, D: Copy> Binder<X, HostEffectPredicate<X, D>> {
    /// The trait.
    pub fn def_id(&self) -> TraitId<D>
        ensures { result ≡ (((self.now).value).trait_ref).def_id }
    {
        self.value.trait_ref.def_id
    }

    /// The type that implements the trait, under the same binder. The interner has to know the trait reference, whose
    /// arguments have to begin with a type. It takes no memory.
    pub fn self_ty<I: Interner<Key = X, Id = D>>(&self, cx: &I) -> Binder<X, Ty<I>>
        requires trait_known { IsTrue (known (trait_ref_tree (I.meaning cx.now) ((self.now).value).trait_ref)) }
        requires has_self { HasSelf ((I.meaning cx.now).args (((self.now).value).trait_ref).args) }
        ensures sure { IsTrue (known ((I.meaning cx.now).ty result.value)) }
        ensures means { IsSelf (I.meaning cx.now) result.value (((self.now).value).trait_ref).args }
        ensures binder { result.bound_vars ≡ (self.now).bound_vars }
    {
        Binder {
            value: self.value.self_ty(cx),
            bound_vars: self.bound_vars,
        }
    }

    /// Where it holds: in const contexts always, or where its own context is const.
    pub fn constness(&self) -> BoundConstness
        ensures { result ≡ ((self.now).value).constness }
    {
        self.value.constness
    }
}
