//! What is read of an alias term's kind.
ghost use Rattle.std.specs.Prelude.{◌≡◌};
ghost use Rattle.relation_terms.specs.Predicates.{alias_term_kind, alias_term_id};
ghost use Rattle.relation_terms.specs.Aliases.{is_type_kind, description, as_term_kind};
ghost use Rattle.relation_terms.specs.Aliases.{IsTypeKind, IsConstKind, IsProjectionKind};

use crate::predicate::AliasTermKind;
use crate::terms::{AliasTyKind, DefId, TraitAssocTermId, UnevaluatedConstId};

impl<D: Copy> AliasTermKind<D> {
    /// What an error calls an alias of this kind.
    pub fn descr(&self) -> &'static str
        ensures { result.now ≡ description (alias_term_kind self.now) }
    {
        match self {
            AliasTermKind::ProjectionTy { .. } => "associated type",
            AliasTermKind::InherentTy { .. } => "inherent associated type",
            AliasTermKind::OpaqueTy { .. } => "opaque type",
            AliasTermKind::FreeTy { .. } => "type alias",
            AliasTermKind::UnevaluatedConst { .. } => "unevaluated constant",
            AliasTermKind::ProjectionConst { .. } => "associated const",
            AliasTermKind::FreeConst { .. } => "unevaluated constant",
            AliasTermKind::InherentConst { .. } => "inherent associated const",
        }
    }

    /// Whether an alias of this kind is a type; else it is a constant.
    pub fn is_type(&self) -> bool
        ensures { result ≡ is_type_kind (alias_term_kind self.now) }
    {
        match self {
            AliasTermKind::ProjectionTy { .. }
            | AliasTermKind::InherentTy { .. }
            | AliasTermKind::OpaqueTy { .. }
            | AliasTermKind::FreeTy { .. } => true,
            AliasTermKind::UnevaluatedConst { .. }
            | AliasTermKind::ProjectionConst { .. }
            | AliasTermKind::FreeConst { .. }
            | AliasTermKind::InherentConst { .. } => false,
        }
    }

    /// The id of the item that the alias is.
    pub fn def_id(&self) -> DefId<D>
        ensures { result.0 ≡ alias_term_id self.now }
    {
        match self {
            AliasTermKind::ProjectionTy { def_id } => DefId(def_id.0),
            AliasTermKind::InherentTy { def_id } => DefId(def_id.0),
            AliasTermKind::OpaqueTy { def_id } => DefId(def_id.0),
            AliasTermKind::FreeTy { def_id } => DefId(def_id.0),
            AliasTermKind::UnevaluatedConst { def_id } => DefId(def_id.0),
            AliasTermKind::ProjectionConst { def_id } => DefId(def_id.0),
            AliasTermKind::FreeConst { def_id } => DefId(def_id.0),
            AliasTermKind::InherentConst { def_id } => DefId(def_id.0),
        }
    }

    // The kind of types that it is.
    pub(super) fn expect_ty(&self) -> AliasTyKind<D>
        requires { IsTypeKind (alias_term_kind self.now) }
        ensures { as_term_kind result ≡ self.now }
    {
        match self {
            AliasTermKind::ProjectionTy { def_id } => AliasTyKind::Projection { def_id: *def_id },
            AliasTermKind::InherentTy { def_id } => AliasTyKind::Inherent { def_id: *def_id },
            AliasTermKind::OpaqueTy { def_id } => AliasTyKind::Opaque { def_id: *def_id },
            AliasTermKind::FreeTy { def_id } => AliasTyKind::Free { def_id: *def_id },
            _ => unreachable!(),
        }
    }

    // The constant that is not evaluated.
    pub(super) fn expect_ct(&self) -> UnevaluatedConstId<D>
        requires { IsConstKind (alias_term_kind self.now) }
        ensures { result.0 ≡ alias_term_id self.now }
    {
        match self {
            AliasTermKind::UnevaluatedConst { def_id } => *def_id,
            AliasTermKind::ProjectionConst { def_id } => UnevaluatedConstId(def_id.0),
            AliasTermKind::FreeConst { def_id } => UnevaluatedConstId(def_id.0),
            AliasTermKind::InherentConst { def_id } => UnevaluatedConstId(def_id.0),
            _ => unreachable!(),
        }
    }

    // What a trait declares.
    pub(super) fn expect_projection(&self) -> TraitAssocTermId<D>
        requires { IsProjectionKind (alias_term_kind self.now) }
        ensures { result.0 ≡ alias_term_id self.now }
    {
        match self {
            AliasTermKind::ProjectionTy { def_id } => TraitAssocTermId(def_id.0),
            AliasTermKind::ProjectionConst { def_id } => TraitAssocTermId(def_id.0),
            _ => unreachable!(),
        }
    }
}

impl<D> From<AliasTyKind<D>> for AliasTermKind<D> {
    ghost from_gives = { λ alias kind. kind ≡ as_term_kind alias };

    fn from(alias: AliasTyKind<D>) -> AliasTermKind<D> {
        match alias {
            AliasTyKind::Projection { def_id } => AliasTermKind::ProjectionTy { def_id },
            AliasTyKind::Inherent { def_id } => AliasTermKind::InherentTy { def_id },
            AliasTyKind::Opaque { def_id } => AliasTermKind::OpaqueTy { def_id },
            AliasTyKind::Free { def_id } => AliasTermKind::FreeTy { def_id },
        }
    }
}
