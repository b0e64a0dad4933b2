//! What is asked of predicates and clauses as a whole.
ghost use Rattle.relation_terms.specs.Predicates.{clause_kind_tree, predicate_kind_tree, predicate_tree};

use crate::flags::Flagged;
use crate::{ItemId, NodeKey, RefInterner, SymbolId};
use relation_terms::predicate::{ClauseKind, PredicateKind};
use relation_terms::terms::{Binder, ClauseKey, TypeFlags};

impl Flagged for ClauseKind<NodeKey, ItemId, SymbolId> {
    ghost tree = { λ m c. clause_kind_tree m c };

    fn flags(&self, cx: &RefInterner) -> TypeFlags {
        match self {
            ClauseKind::Trait(of) => of.trait_ref.args.flags(cx),
            ClauseKind::RegionOutlives(pair) => pair.0.flags(cx).and(&pair.1.flags(cx)),
            ClauseKind::TypeOutlives(pair) => pair.0.flags(cx).and(&pair.1.flags(cx)),
            ClauseKind::Projection(of) => of.projection_term.args.flags(cx).and(&of.term.flags(cx)),
            ClauseKind::ConstArgHasType(constant, ty) => constant.flags(cx).and(&ty.flags(cx)),
            ClauseKind::WellFormed(term) => term.flags(cx),
            ClauseKind::ConstEvaluatable(constant) => constant.flags(cx),
            ClauseKind::HostEffect(of) => of.trait_ref.args.flags(cx),
            ClauseKind::UnstableFeature(_) => TypeFlags::none(),
        }
    }
}

impl Flagged for PredicateKind<NodeKey, ItemId, SymbolId> {
    ghost tree = { λ m p. predicate_kind_tree m p };

    fn flags(&self, cx: &RefInterner) -> TypeFlags {
        match self {
            PredicateKind::Clause(clause) => clause.flags(cx),
            PredicateKind::Subtype(pair) => pair.a.flags(cx).and(&pair.b.flags(cx)),
            PredicateKind::Coerce(pair) => pair.a.flags(cx).and(&pair.b.flags(cx)),
            PredicateKind::NormalizesTo(of) => of.alias.args.flags(cx).and(&of.term.flags(cx)),
            PredicateKind::AliasRelate(first, second, _) => first.flags(cx).and(&second.flags(cx)),
            PredicateKind::Ambiguous => TypeFlags::none(),
        }
    }
}

impl Flagged for Binder<NodeKey, PredicateKind<NodeKey, ItemId, SymbolId>> {
    ghost tree = { λ m b. predicate_tree m b };

    fn flags(&self, cx: &RefInterner) -> TypeFlags {
        self.value.flags(cx).under_binder()
    }
}

impl Flagged for ClauseKey<NodeKey> {
    ghost tree = { λ m k. m.clause k };

    fn flags(&self, cx: &RefInterner) -> TypeFlags {
        cx.kept_flags(&self.0)
    }
}
