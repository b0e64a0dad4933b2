//! Visits of predicates, by their parts: one table of fields for all forms.
ghost use Rattle.std.specs.Prelude.{IsTrue};
ghost use Rattle.relation_terms.specs.Trees.{known};
ghost use Rattle.relation_terms.specs.Fields.{field_tree, fields_tree};
ghost use Rattle.relation_folds.specs.Visits.{Walks};

use crate::visit::{
    TypeVisitable, TypeVisitor, visit_args_with, visit_const_with, visit_region_with, visit_ty_with,
};
use relation_terms::predicate::{
    AliasTerm, ClauseKind, CoercePredicate, HostEffectPredicate, NormalizesTo, OutlivesPredicate,
    PredicateKind, ProjectionPredicate, SubtypePredicate, TraitPredicate, TraitRef,
};
use relation_terms::terms::parts::{Field, Fields, FieldsOf, clause_fields, predicate_fields};
use relation_terms::terms::{AliasTy, Interner, RegionKey, TyKey};
use std::ops::ControlFlow;

// Goes over a part of a predicate.
fn visit_field<I: Interner, V: TypeVisitor<I>>(
    cx: &I,
    field: &Field<I::Key, I::Id>,
    visitor: &mut V,
) -> ControlFlow<()>
    requires { IsTrue (known (field_tree (I.meaning cx.now) field.now)) }
    ensures { Walks (V.visits cx.now) 0 visitor.old (field_tree (I.meaning cx.now) field.now) visitor.new result }
{
    match field {
        Field::Region(region) => visit_region_with(cx, region, visitor),
        Field::Ty(ty) => visit_ty_with(cx, ty, visitor),
        Field::Const(constant) => visit_const_with(cx, constant, visitor),
        Field::TraitRef(of) => visit_args_with(cx, &of.args, visitor),
        Field::AliasTerm(of) => visit_args_with(cx, &of.args, visitor),
    }
}

// Goes over the parts of a predicate, in order.
fn visit_fields<I: Interner, V: TypeVisitor<I>>(
    cx: &I,
    fields: &FieldsOf<I>,
    visitor: &mut V,
) -> ControlFlow<()>
    requires { IsTrue (known (fields_tree (I.meaning cx.now) fields.now)) }
    ensures { Walks (V.visits cx.now) 0 visitor.old (fields_tree (I.meaning cx.now) fields.now) visitor.new result }
{
    match fields {
        Fields::Empty => ControlFlow::Continue(()),
        Fields::One(field) => visit_field(cx, field, visitor),
        Fields::Two(first, second) => {
            visit_field(cx, first, visitor)?;
            visit_field(cx, second, visitor)
        }
    }
}

impl<I: Interner> TypeVisitable<I> for TraitRef<I::Key, I::Id> {
    fn visit_with<V: TypeVisitor<I>>(&self, cx: &I, visitor: &mut V) -> ControlFlow<()> {
        visit_field(cx, &Field::TraitRef(*self), visitor)
    }
}

impl<I: Interner> TypeVisitable<I> for AliasTerm<I::Key, I::Id> {
    fn visit_with<V: TypeVisitor<I>>(&self, cx: &I, visitor: &mut V) -> ControlFlow<()> {
        visit_field(cx, &Field::AliasTerm(*self), visitor)
    }
}

impl<I: Interner> TypeVisitable<I> for AliasTy<I::Key, I::Id> {
    fn visit_with<V: TypeVisitor<I>>(&self, cx: &I, visitor: &mut V) -> ControlFlow<()> {
        visit_args_with(cx, &self.args, visitor)
    }
}

impl<I: Interner> TypeVisitable<I> for ClauseKind<I::Key, I::Id, I::Name> {
    fn visit_with<V: TypeVisitor<I>>(&self, cx: &I, visitor: &mut V) -> ControlFlow<()> {
        visit_fields(cx, &clause_fields(self), visitor)
    }
}

impl<I: Interner> TypeVisitable<I> for PredicateKind<I::Key, I::Id, I::Name> {
    fn visit_with<V: TypeVisitor<I>>(&self, cx: &I, visitor: &mut V) -> ControlFlow<()> {
        visit_fields(cx, &predicate_fields(self), visitor)
    }
}

impl<I: Interner> TypeVisitable<I> for TraitPredicate<I::Key, I::Id> {
    fn visit_with<V: TypeVisitor<I>>(&self, cx: &I, visitor: &mut V) -> ControlFlow<()> {
        ClauseKind::<I::Key, I::Id, I::Name>::Trait(*self).visit_with(cx, visitor)
    }
}

impl<I: Interner> TypeVisitable<I> for HostEffectPredicate<I::Key, I::Id> {
    fn visit_with<V: TypeVisitor<I>>(&self, cx: &I, visitor: &mut V) -> ControlFlow<()> {
        ClauseKind::<I::Key, I::Id, I::Name>::HostEffect(*self).visit_with(cx, visitor)
    }
}

impl<I: Interner> TypeVisitable<I> for ProjectionPredicate<I::Key, I::Id> {
    fn visit_with<V: TypeVisitor<I>>(&self, cx: &I, visitor: &mut V) -> ControlFlow<()> {
        ClauseKind::<I::Key, I::Id, I::Name>::Projection(*self).visit_with(cx, visitor)
    }
}

impl<I: Interner> TypeVisitable<I> for OutlivesPredicate<I::Key, RegionKey<I::Key>> {
    fn visit_with<V: TypeVisitor<I>>(&self, cx: &I, visitor: &mut V) -> ControlFlow<()> {
        ClauseKind::<I::Key, I::Id, I::Name>::RegionOutlives(*self).visit_with(cx, visitor)
    }
}

impl<I: Interner> TypeVisitable<I> for OutlivesPredicate<I::Key, TyKey<I::Key>> {
    fn visit_with<V: TypeVisitor<I>>(&self, cx: &I, visitor: &mut V) -> ControlFlow<()> {
        ClauseKind::<I::Key, I::Id, I::Name>::TypeOutlives(*self).visit_with(cx, visitor)
    }
}

impl<I: Interner> TypeVisitable<I> for SubtypePredicate<I::Key> {
    fn visit_with<V: TypeVisitor<I>>(&self, cx: &I, visitor: &mut V) -> ControlFlow<()> {
        PredicateKind::<I::Key, I::Id, I::Name>::Subtype(*self).visit_with(cx, visitor)
    }
}

impl<I: Interner> TypeVisitable<I> for CoercePredicate<I::Key> {
    fn visit_with<V: TypeVisitor<I>>(&self, cx: &I, visitor: &mut V) -> ControlFlow<()> {
        PredicateKind::<I::Key, I::Id, I::Name>::Coerce(*self).visit_with(cx, visitor)
    }
}

impl<I: Interner> TypeVisitable<I> for NormalizesTo<I::Key, I::Id> {
    fn visit_with<V: TypeVisitor<I>>(&self, cx: &I, visitor: &mut V) -> ControlFlow<()> {
        PredicateKind::<I::Key, I::Id, I::Name>::NormalizesTo(*self).visit_with(cx, visitor)
    }
}
