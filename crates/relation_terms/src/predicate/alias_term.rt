//! Aliases of types and of constants, and what predicates say of them.
ghost use Rattle.std.specs.Prelude.{◌≡◌, IsTrue, IsSome, IfOk, OnErr, Some};
ghost use Rattle.relation_terms.specs.Trees.{known};
ghost use Rattle.relation_terms.specs.Meaning.{Extends, term_tree};
ghost use Rattle.relation_terms.specs.Predicates.{alias_term_kind, alias_term_id, alias_term_tree, item_alias};
ghost use Rattle.relation_terms.specs.Aliases.{IsTypeKind, IsConstKind, as_term_kind, alias_as_term};
ghost use Rattle.relation_terms.specs.Edited.{args_tree};

use crate::terms::{
    AliasTy, ArgsKey, ConstKind, DefId, FreeConstAliasId, FreeTyAliasId, GenericArg, GenericArgs,
    InherentAssocConstId, InherentAssocTyId, Interner, ItemOf, OpaqueTyId, OutOfMemory, Term,
    TermKind, TraitAssocConstId, TraitAssocTyId, TyKind, UnevaluatedConst, UnevaluatedConstId,
};
use std::alloc::AllocError;

/// Which kind of alias a type or a constant is, and its id.
#[derive(PartialEq, Eq, Hash)]
pub enum AliasTermKind<D> {
    /// An associated type of a trait.
    ProjectionTy { def_id: TraitAssocTyId<D> },
    /// An associated type of an inherent impl.
    InherentTy { def_id: InherentAssocTyId<D> },
    /// An opaque type.
    OpaqueTy { def_id: OpaqueTyId<D> },
    /// A type alias.
    FreeTy { def_id: FreeTyAliasId<D> },
    /// A constant that is not evaluated.
    UnevaluatedConst { def_id: UnevaluatedConstId<D> },
    /// An associated constant of a trait.
    ProjectionConst { def_id: TraitAssocConstId<D> },
    /// A constant that stands free of any trait or impl.
    FreeConst { def_id: FreeConstAliasId<D> },
    /// An associated constant of an inherent impl.
    InherentConst { def_id: InherentAssocConstId<D> },
}

/// A type or a constant that is an alias, by its kind and its arguments.
#[derive(PartialEq, Eq, Hash)]
pub struct AliasTerm<X, D> {
    pub kind: AliasTermKind<D>,
    pub args: ArgsKey<X>,
}

/// An alias comes to a term.
#[derive(PartialEq, Eq, Hash)]
pub struct ProjectionPredicate<X, D> {
    pub projection_term: AliasTerm<X, D>,
    pub term: TermKind<X>,
}

/// An alias comes to a term when it is resolved by one step.
#[derive(PartialEq, Eq, Hash)]
pub struct NormalizesTo<X, D> {
    pub alias: AliasTerm<X, D>,
    pub term: TermKind<X>,
}

impl<X: Copy, D: Copy> AliasTerm<X, D> {
    /// The alias of this kind and these arguments, which fit its item. Upstream the interner is handed in too, and
    /// asserts that.
    pub fn new_from_args(kind: AliasTermKind<D>, args: ArgsKey<X>) -> AliasTerm<X, D>
        ensures item { result.kind ≡ kind }
        ensures arguments { result.args ≡ args }
    {
        AliasTerm { kind, args }
    }

    /// The alias of this kind and a list of these arguments, which fit its item. The interner has to know them.
    ///
    /// Answers `OutOfMemory` where a growth was refused, which leaves the meaning of all keys as it was.
    pub fn new<I: Interner<Key = X, Id = D>>(
        cx: &mut I,
        kind: AliasTermKind<D>,
        args: &[GenericArg<I>],
    ) -> Result<AliasTerm<X, D>, OutOfMemory>
        requires { IsTrue (known (args_tree (I.meaning cx.old) args.now)) }
        ensures grown { Extends (I.meaning cx.old) (I.meaning cx.new) }
        ensures sure { IfOk result (λ t. IsTrue (known (alias_term_tree (I.meaning cx.new) t))) }
        ensures item { IfOk result (λ t. t.kind ≡ kind) }
        ensures arguments { IfOk result (λ t. (I.meaning cx.new).args t.args ≡ args_tree (I.meaning cx.old) args.now) }
        ensures refused { OnErr result (I.meaning cx.new ≡ I.meaning cx.old) }
    {
        let list = cx.mk_args(args)?;
        Ok(AliasTerm { kind, args: list })
    }

    /// The alias that an item is, with these arguments, which fit it. By the interner's tables the item has to be one.
    pub fn new_from_def_id<I: Interner<Key = X, Id = D>>(
        cx: &I,
        def_id: &ItemOf<I>,
        args: GenericArgs<I>,
    ) -> AliasTerm<X, D>
        requires { IsSome (item_alias (I.meaning cx.now) (def_id.now).0) }
        ensures item { Some result.kind ≡ item_alias (I.meaning cx.now) (def_id.now).0 }
        ensures arguments { result.args ≡ args }
    {
        match cx.alias_term_kind_from_def_id(def_id) {
            Some(kind) => AliasTerm { kind, args },
            None => unreachable!(),
        }
    }

    /// The alias that a constant is. By the interner's tables its item has to be one.
    pub fn from_unevaluated_const<I: Interner<Key = X, Id = D>>(
        cx: &I,
        constant: &UnevaluatedConst<X, D>,
    ) -> AliasTerm<X, D>
        requires { IsSome (item_alias (I.meaning cx.now) ((constant.now).def).0) }
        ensures item { Some result.kind ≡ item_alias (I.meaning cx.now) ((constant.now).def).0 }
        ensures arguments { result.args ≡ (constant.now).args }
    {
        AliasTerm::new_from_def_id(cx, &DefId(constant.def.0), constant.args)
    }

    /// The type that the alias is. It has to be of a kind of types.
    pub fn expect_ty(&self) -> AliasTy<X, D>
        requires { IsTypeKind (alias_term_kind (self.now).kind) }
        ensures item { as_term_kind result.kind ≡ (self.now).kind }
        ensures arguments { result.args ≡ (self.now).args }
    {
        AliasTy {
            kind: self.kind.expect_ty(),
            args: self.args,
        }
    }

    /// The constant that the alias is. It has to be of a kind of constants.
    pub fn expect_ct(&self) -> UnevaluatedConst<X, D>
        requires { IsConstKind (alias_term_kind (self.now).kind) }
        ensures item { (result.def).0 ≡ alias_term_id (self.now).kind }
        ensures arguments { result.args ≡ (self.now).args }
    {
        UnevaluatedConst {
            def: self.kind.expect_ct(),
            args: self.args,
        }
    }

    /// Which kind of alias it is.
    pub fn kind(&self) -> AliasTermKind<D>
        ensures { result ≡ (self.now).kind }
    {
        self.kind
    }

    /// The id of the item that the alias is.
    pub fn def_id(&self) -> DefId<D>
        ensures { result.0 ≡ alias_term_id (self.now).kind }
    {
        self.kind.def_id()
    }

    /// The type or the constant that the alias is. The interner has to know the alias.
    ///
    /// Answers `OutOfMemory` where a growth was refused, which leaves the meaning of all keys as it was.
    pub fn to_term<I: Interner<Key = X, Id = D>>(&self, cx: &mut I) -> Result<Term<I>, OutOfMemory>
        requires { IsTrue (known (alias_term_tree (I.meaning cx.old) self.now)) }
        ensures grown { Extends (I.meaning cx.old) (I.meaning cx.new) }
        ensures sure { IfOk result (λ t. IsTrue (known (term_tree (I.meaning cx.new) t))) }
        ensures made { IfOk result (λ t. term_tree (I.meaning cx.new) t ≡ alias_as_term (I.meaning cx.old) self.now) }
        ensures refused { OnErr result (I.meaning cx.new ≡ I.meaning cx.old) }
    {
        if self.kind.is_type() {
            let ty = cx.mk_ty(TyKind::Alias(self.expect_ty()))?;
            Ok(TermKind::Ty(ty))
        } else {
            let constant = cx.mk_const(ConstKind::Unevaluated(self.expect_ct()))?;
            Ok(TermKind::Const(constant))
        }
    }

    /// The alias of the same kind with other arguments, which fit its item. Upstream the interner is handed in too, and
    /// asserts that.
    pub fn with_args(&self, args: ArgsKey<X>) -> AliasTerm<X, D>
        ensures item { result.kind ≡ (self.now).kind }
        ensures arguments { result.args ≡ args }
    {
        AliasTerm {
            kind: self.kind,
            args,
        }
    }
}

impl<X, D> From<AliasTy<X, D>> for AliasTerm<X, D> {
    ghost from_gives = { λ alias t. (t.kind ≡ as_term_kind alias.kind) × (t.args ≡ alias.args) };

    fn from(alias: AliasTy<X, D>) -> AliasTerm<X, D> {
        AliasTerm {
            kind: AliasTermKind::from(alias.kind),
            args: alias.args,
        }
    }
}

impl<D: Copy> Clone for AliasTermKind<D> {
    ghost is_clone = { λ source copy. copy ≡ source };

    ghost is_infallible = { λ _. Unit {0} };

    fn clone(&self) -> Result<Self, AllocError> {
        Ok(*self)
    }
}

impl<D: Copy> Copy for AliasTermKind<D> {}

impl<X: Copy, D: Copy> Clone for AliasTerm<X, D> {
    ghost is_clone = { λ source copy. copy ≡ source };

    ghost is_infallible = { λ _. Unit {0} };

    fn clone(&self) -> Result<Self, AllocError> {
        Ok(*self)
    }
}

impl<X: Copy, D: Copy> Copy for AliasTerm<X, D> {}

impl<X: Copy, D: Copy> Clone for ProjectionPredicate<X, D> {
    ghost is_clone = { λ source copy. copy ≡ source };

    ghost is_infallible = { λ _. Unit {0} };

    fn clone(&self) -> Result<Self, AllocError> {
        Ok(*self)
    }
}

impl<X: Copy, D: Copy> Copy for ProjectionPredicate<X, D> {}

impl<X: Copy, D: Copy> Clone for NormalizesTo<X, D> {
    ghost is_clone = { λ source copy. copy ≡ source };

    ghost is_infallible = { λ _. Unit {0} };

    fn clone(&self) -> Result<Self, AllocError> {
        Ok(*self)
    }
}

impl<X: Copy, D: Copy> Copy for NormalizesTo<X, D> {}
