//! How parts vary with what they are parts of: the arguments of items and of alias types, and pointees.
ghost use Rattle.std.specs.Prelude.{◌≡◌};
ghost use Rattle.relation_terms.specs.Meaning.{alias_id};
ghost use Rattle.relation_semantics.specs.Lawful.{items_of};
ghost use Rattle.relation_semantics.specs.Relation.{pointee_variance, alias_variance};

use relation_terms::terms::{AliasTyKind, DefId, Interner, ItemOf, Mutability, Variance};

/// The variance that an item declares of its parameter at a place; past the last, `Invariant`.
pub fn declared_variance<I: Interner>(cx: &I, def_id: &ItemOf<I>, i: usize) -> Variance
    ensures { let m = I.meaning cx.now in result ≡ (items_of m).declared (m.id (def_id.now).0) i }
{
    match cx.variances_of(def_id).get(i) {
        Some(variance) => *variance,
        None => Variance::Invariant,
    }
}

/// The item that an alias type is of.
pub fn alias_item<D: Copy>(kind: &AliasTyKind<D>) -> DefId<D>
    ensures { result.0 ≡ alias_id kind.now }
{
    match kind {
        AliasTyKind::Projection { def_id } => DefId(def_id.0),
        AliasTyKind::Inherent { def_id } => DefId(def_id.0),
        AliasTyKind::Opaque { def_id } => DefId(def_id.0),
        AliasTyKind::Free { def_id } => DefId(def_id.0),
    }
}

/// The variance at which an alias type's argument at a place is related: the one that is declared of the alias type,
/// where it has any, else `Invariant`.
pub fn alias_argument_variance<I: Interner>(cx: &I, kind: &AliasTyKind<I::Id>, i: usize) -> Variance
    ensures { let m = I.meaning cx.now in
        result ≡ alias_variance ((items_of m).of_alias (m.id (alias_id kind.now))) i }
{
    match cx.opt_alias_variances(&alias_item(kind)) {
        Some(variances) => match variances.get(i) {
            Some(variance) => *variance,
            None => Variance::Invariant,
        },
        None => Variance::Invariant,
    }
}

/// How a pointee varies with its pointer: as it, or, where it may be written through, invariantly.
pub fn pointee(mutability: Mutability) -> Variance
    ensures { result ≡ pointee_variance mutability }
{
    match mutability {
        Mutability::Not => Variance::Covariant,
        Mutability::Mut => Variance::Invariant,
    }
}
