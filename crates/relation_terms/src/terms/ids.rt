//! Ids of items.
//!
//! There is one representation of ids. Where only items of one kind may stand, they have a type of their own over it,
//! which converts into the id of any item.
ghost use Rattle.std.specs.Prelude.{◌≡◌};

use crate::terms::Keys;

/// The id of an item of any kind.
#[derive(Clone, Copy, PartialEq, Eq, Hash)]
pub struct DefId<D>(pub D);

/// The id of a struct, an enum or a union.
#[derive(Clone, Copy, PartialEq, Eq, Hash)]
pub struct AdtId<D>(pub D);

/// The id of a function.
#[derive(Clone, Copy, PartialEq, Eq, Hash)]
pub struct FunctionId<D>(pub D);

/// The id of a closure.
#[derive(Clone, Copy, PartialEq, Eq, Hash)]
pub struct ClosureId<D>(pub D);

/// The id of a closure that answers coroutines.
#[derive(Clone, Copy, PartialEq, Eq, Hash)]
pub struct CoroutineClosureId<D>(pub D);

/// The id of a coroutine.
#[derive(Clone, Copy, PartialEq, Eq, Hash)]
pub struct CoroutineId<D>(pub D);

/// The id of a type that is defined outside the language.
#[derive(Clone, Copy, PartialEq, Eq, Hash)]
pub struct ForeignId<D>(pub D);

/// The id of a trait.
#[derive(Clone, Copy, PartialEq, Eq, Hash, Debug)]
pub struct TraitId<D>(pub D);

/// The id of an associated type of a trait.
#[derive(Clone, Copy, PartialEq, Eq, Hash)]
pub struct TraitAssocTyId<D>(pub D);

/// The id of an associated constant of a trait.
#[derive(Clone, Copy, PartialEq, Eq, Hash)]
pub struct TraitAssocConstId<D>(pub D);

/// The id of an associated type or constant of a trait.
#[derive(Clone, Copy, PartialEq, Eq, Hash)]
pub struct TraitAssocTermId<D>(pub D);

/// The id of an associated type of an inherent impl.
#[derive(Clone, Copy, PartialEq, Eq, Hash)]
pub struct InherentAssocTyId<D>(pub D);

/// The id of an associated constant of an inherent impl.
#[derive(Clone, Copy, PartialEq, Eq, Hash)]
pub struct InherentAssocConstId<D>(pub D);

/// The id of an opaque type.
#[derive(Clone, Copy, PartialEq, Eq, Hash)]
pub struct OpaqueTyId<D>(pub D);

/// The id of a type alias.
#[derive(Clone, Copy, PartialEq, Eq, Hash)]
pub struct FreeTyAliasId<D>(pub D);

/// The id of a constant that stands free of any trait or impl.
#[derive(Clone, Copy, PartialEq, Eq, Hash)]
pub struct FreeConstAliasId<D>(pub D);

/// The id of a constant that is not evaluated.
#[derive(Clone, Copy, PartialEq, Eq, Hash)]
pub struct UnevaluatedConstId<D>(pub D);

/// The id of an item of an interner.
pub type ItemOf<I> = DefId<<I as Keys>::Id>;

/// The definition of a struct, an enum or a union, of an interner: its id, by which the interner's calls read it.
pub type AdtDef<I> = AdtId<<I as Keys>::Id>;

impl<D> From<AdtId<D>> for DefId<D> {
    ghost from_gives = { λ id d. d ≡ record { 0 = id.0 } };

    fn from(id: AdtId<D>) -> DefId<D> {
        DefId(id.0)
    }
}

impl<D> From<FunctionId<D>> for DefId<D> {
    ghost from_gives = { λ id d. d ≡ record { 0 = id.0 } };

    fn from(id: FunctionId<D>) -> DefId<D> {
        DefId(id.0)
    }
}

impl<D> From<ClosureId<D>> for DefId<D> {
    ghost from_gives = { λ id d. d ≡ record { 0 = id.0 } };

    fn from(id: ClosureId<D>) -> DefId<D> {
        DefId(id.0)
    }
}

impl<D> From<CoroutineClosureId<D>> for DefId<D> {
    ghost from_gives = { λ id d. d ≡ record { 0 = id.0 } };

    fn from(id: CoroutineClosureId<D>) -> DefId<D> {
        DefId(id.0)
    }
}

impl<D> From<CoroutineId<D>> for DefId<D> {
    ghost from_gives = { λ id d. d ≡ record { 0 = id.0 } };

    fn from(id: CoroutineId<D>) -> DefId<D> {
        DefId(id.0)
    }
}

impl<D> From<ForeignId<D>> for DefId<D> {
    ghost from_gives = { λ id d. d ≡ record { 0 = id.0 } };

    fn from(id: ForeignId<D>) -> DefId<D> {
        DefId(id.0)
    }
}

impl<D> From<TraitId<D>> for DefId<D> {
    ghost from_gives = { λ id d. d ≡ record { 0 = id.0 } };

    fn from(id: TraitId<D>) -> DefId<D> {
        DefId(id.0)
    }
}

impl<D> From<TraitAssocTyId<D>> for DefId<D> {
    ghost from_gives = { λ id d. d ≡ record { 0 = id.0 } };

    fn from(id: TraitAssocTyId<D>) -> DefId<D> {
        DefId(id.0)
    }
}

impl<D> From<TraitAssocConstId<D>> for DefId<D> {
    ghost from_gives = { λ id d. d ≡ record { 0 = id.0 } };

    fn from(id: TraitAssocConstId<D>) -> DefId<D> {
        DefId(id.0)
    }
}

impl<D> From<TraitAssocTermId<D>> for DefId<D> {
    ghost from_gives = { λ id d. d ≡ record { 0 = id.0 } };

    fn from(id: TraitAssocTermId<D>) -> DefId<D> {
        DefId(id.0)
    }
}

impl<D> From<InherentAssocTyId<D>> for DefId<D> {
    ghost from_gives = { λ id d. d ≡ record { 0 = id.0 } };

    fn from(id: InherentAssocTyId<D>) -> DefId<D> {
        DefId(id.0)
    }
}

impl<D> From<InherentAssocConstId<D>> for DefId<D> {
    ghost from_gives = { λ id d. d ≡ record { 0 = id.0 } };

    fn from(id: InherentAssocConstId<D>) -> DefId<D> {
        DefId(id.0)
    }
}

impl<D> From<OpaqueTyId<D>> for DefId<D> {
    ghost from_gives = { λ id d. d ≡ record { 0 = id.0 } };

    fn from(id: OpaqueTyId<D>) -> DefId<D> {
        DefId(id.0)
    }
}

impl<D> From<FreeTyAliasId<D>> for DefId<D> {
    ghost from_gives = { λ id d. d ≡ record { 0 = id.0 } };

    fn from(id: FreeTyAliasId<D>) -> DefId<D> {
        DefId(id.0)
    }
}

impl<D> From<FreeConstAliasId<D>> for DefId<D> {
    ghost from_gives = { λ id d. d ≡ record { 0 = id.0 } };

    fn from(id: FreeConstAliasId<D>) -> DefId<D> {
        DefId(id.0)
    }
}

impl<D> From<UnevaluatedConstId<D>> for DefId<D> {
    ghost from_gives = { λ id d. d ≡ record { 0 = id.0 } };

    fn from(id: UnevaluatedConstId<D>) -> DefId<D> {
        DefId(id.0)
    }
}

impl<D> From<TraitAssocTyId<D>> for TraitAssocTermId<D> {
    ghost from_gives = { λ id d. d ≡ record { 0 = id.0 } };

    fn from(id: TraitAssocTyId<D>) -> TraitAssocTermId<D> {
        TraitAssocTermId(id.0)
    }
}

impl<D> From<TraitAssocConstId<D>> for TraitAssocTermId<D> {
    ghost from_gives = { λ id d. d ≡ record { 0 = id.0 } };

    fn from(id: TraitAssocConstId<D>) -> TraitAssocTermId<D> {
        TraitAssocTermId(id.0)
    }
}

impl<D> From<TraitAssocConstId<D>> for UnevaluatedConstId<D> {
    ghost from_gives = { λ id d. d ≡ record { 0 = id.0 } };

    fn from(id: TraitAssocConstId<D>) -> UnevaluatedConstId<D> {
        UnevaluatedConstId(id.0)
    }
}

impl<D> From<InherentAssocConstId<D>> for UnevaluatedConstId<D> {
    ghost from_gives = { λ id d. d ≡ record { 0 = id.0 } };

    fn from(id: InherentAssocConstId<D>) -> UnevaluatedConstId<D> {
        UnevaluatedConstId(id.0)
    }
}

impl<D> From<FreeConstAliasId<D>> for UnevaluatedConstId<D> {
    ghost from_gives = { λ id d. d ≡ record { 0 = id.0 } };

    fn from(id: FreeConstAliasId<D>) -> UnevaluatedConstId<D> {
        UnevaluatedConstId(id.0)
    }
}
