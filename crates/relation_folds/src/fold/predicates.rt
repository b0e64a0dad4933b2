//! Folds of predicates, by their parts: one table of fields for all forms.
ghost use Rattle.std.specs.Prelude.{◌≡◌, IsTrue, IfOk, IfSome};
ghost use Rattle.relation_terms.specs.Trees.{known};
ghost use Rattle.relation_terms.specs.Fields.{field_tree, fields_tree};
ghost use Rattle.relation_folds.specs.Folds.{Steps};
ghost use Rattle.relation_folds.specs.FieldFolds.{FoldsField, FoldsFields, two_or_none};

use crate::fold::{
    TypeFoldable, TypeFolder, fold_args_with, fold_const_with, fold_region_with, fold_ty_with,
};
use relation_terms::predicate::{
    AliasTerm, ClauseKind, CoercePredicate, HostEffectPredicate, NormalizesTo, OutlivesPredicate,
    PredicateKind, ProjectionPredicate, SubtypePredicate, TraitPredicate, TraitRef,
};
use relation_terms::terms::parts::{
    Field, Fields, FieldsOf, clause_fields, clause_over, predicate_fields, predicate_over,
};
use relation_terms::terms::{AliasTy, Interner, OutOfMemory, RegionKey, TyKey};

// What the folder makes of a part of a predicate, or nothing where that is the part as it was.
fn fold_field<I: Interner, F: TypeFolder<I>>(
    cx: &mut I,
    field: &Field<I::Key, I::Id>,
    folder: &mut F,
) -> Result<Option<Field<I::Key, I::Id>>, OutOfMemory>
    requires known { IsTrue (known (field_tree (I.meaning cx.old) field.now)) }
    requires ready { F.ready (I.meaning cx.old) folder.old }
    ensures steps { Steps F.ready F.replaces (I.meaning cx.old) folder.old (I.meaning cx.new) folder.new }
    ensures sure { IfOk result (λ o. IfSome o (λ by. IsTrue (known (field_tree (I.meaning cx.new) by)))) }
    ensures made { IfOk result (λ o. FoldsField (F.replaces (I.meaning cx.old) folder.old)
        (I.meaning cx.old) (I.meaning cx.new) field.now o) }
{
    match field {
        Field::Region(old) => {
            let new = fold_region_with(cx, old, folder)?;
            if new == *old {
                return Ok(None);
            }
            Ok(Some(Field::Region(new)))
        }
        Field::Ty(old) => {
            let new = fold_ty_with(cx, old, folder)?;
            if new == *old {
                return Ok(None);
            }
            Ok(Some(Field::Ty(new)))
        }
        Field::Const(old) => {
            let new = fold_const_with(cx, old, folder)?;
            if new == *old {
                return Ok(None);
            }
            Ok(Some(Field::Const(new)))
        }
        Field::TraitRef(TraitRef { def_id, args: old }) => {
            let args = fold_args_with(cx, old, folder)?;
            if args == *old {
                return Ok(None);
            }
            let def_id = *def_id;
            Ok(Some(Field::TraitRef(TraitRef { def_id, args })))
        }
        Field::AliasTerm(AliasTerm { kind, args: old }) => {
            let args = fold_args_with(cx, old, folder)?;
            if args == *old {
                return Ok(None);
            }
            let kind = *kind;
            Ok(Some(Field::AliasTerm(AliasTerm { kind, args })))
        }
    }
}

// Two parts, each in the place of an old one where there is one, or nothing where both are as they were.
fn both_or_none<X: Copy, D: Copy>(
    first: &Field<X, D>,
    second: &Field<X, D>,
    new_first: Option<Field<X, D>>,
    new_second: Option<Field<X, D>>,
) -> Option<Fields<X, D>>
    ensures { result ≡ two_or_none first.now second.now new_first new_second }
{
    match new_first {
        Some(new) => Some(Fields::Two(new, new_second.unwrap_or(*second))),
        None => match new_second {
            Some(new) => Some(Fields::Two(*first, new)),
            None => None,
        },
    }
}

// What the folder makes of the parts of a predicate, or nothing where these are the parts as they were.
fn fold_fields<I: Interner, F: TypeFolder<I>>(
    cx: &mut I,
    fields: &FieldsOf<I>,
    folder: &mut F,
) -> Result<Option<FieldsOf<I>>, OutOfMemory>
    requires known { IsTrue (known (fields_tree (I.meaning cx.old) fields.now)) }
    requires ready { F.ready (I.meaning cx.old) folder.old }
    ensures steps { Steps F.ready F.replaces (I.meaning cx.old) folder.old (I.meaning cx.new) folder.new }
    ensures sure { IfOk result (λ o. IfSome o (λ by. IsTrue (known (fields_tree (I.meaning cx.new) by)))) }
    ensures made { IfOk result (λ o. FoldsFields (F.replaces (I.meaning cx.old) folder.old)
        (I.meaning cx.old) (I.meaning cx.new) fields.now o) }
{
    match fields {
        Fields::Empty => Ok(None),
        Fields::One(field) => match fold_field(cx, field, folder)? {
            Some(new) => Ok(Some(Fields::One(new))),
            None => Ok(None),
        },
        Fields::Two(first, second) => {
            let new_first = fold_field(cx, first, folder)?;
            let new_second = fold_field(cx, second, folder)?;
            Ok(both_or_none(first, second, new_first, new_second))
        }
    }
}

// A copy, which equals what it is of.
fn itself<T: Eq + Copy>(value: &T) -> T
    ensures same { result ≡ value.now }
    ensures equal { IsTrue (T.eq result value.now) }
{
    *value
}

impl<I: Interner> TypeFoldable<I> for ClauseKind<I::Key, I::Id, I::Name> {
    fn fold_with<F: TypeFolder<I>>(&self, cx: &mut I, folder: &mut F) -> Result<Self, OutOfMemory> {
        match fold_fields(cx, &clause_fields(self), folder)? {
            Some(fields) => Ok(clause_over(self, &fields)),
            None => Ok(itself(self)),
        }
    }
}

impl<I: Interner> TypeFoldable<I> for PredicateKind<I::Key, I::Id, I::Name> {
    fn fold_with<F: TypeFolder<I>>(&self, cx: &mut I, folder: &mut F) -> Result<Self, OutOfMemory> {
        match fold_fields(cx, &predicate_fields(self), folder)? {
            Some(fields) => Ok(predicate_over(self, &fields)),
            None => Ok(itself(self)),
        }
    }
}

impl<I: Interner> TypeFoldable<I> for TraitRef<I::Key, I::Id> {
    fn fold_with<F: TypeFolder<I>>(&self, cx: &mut I, folder: &mut F) -> Result<Self, OutOfMemory> {
        Ok(TraitRef {
            def_id: self.def_id,
            args: fold_args_with(cx, &self.args, folder)?,
        })
    }
}

impl<I: Interner> TypeFoldable<I> for AliasTerm<I::Key, I::Id> {
    fn fold_with<F: TypeFolder<I>>(&self, cx: &mut I, folder: &mut F) -> Result<Self, OutOfMemory> {
        Ok(AliasTerm {
            kind: self.kind,
            args: fold_args_with(cx, &self.args, folder)?,
        })
    }
}

impl<I: Interner> TypeFoldable<I> for AliasTy<I::Key, I::Id> {
    fn fold_with<F: TypeFolder<I>>(&self, cx: &mut I, folder: &mut F) -> Result<Self, OutOfMemory> {
        Ok(AliasTy {
            kind: self.kind,
            args: fold_args_with(cx, &self.args, folder)?,
        })
    }
}

impl<I: Interner> TypeFoldable<I> for TraitPredicate<I::Key, I::Id> {
    fn fold_with<F: TypeFolder<I>>(&self, cx: &mut I, folder: &mut F) -> Result<Self, OutOfMemory> {
        Ok(TraitPredicate {
            trait_ref: self.trait_ref.fold_with(cx, folder)?,
            polarity: self.polarity,
        })
    }
}

impl<I: Interner> TypeFoldable<I> for HostEffectPredicate<I::Key, I::Id> {
    fn fold_with<F: TypeFolder<I>>(&self, cx: &mut I, folder: &mut F) -> Result<Self, OutOfMemory> {
        Ok(HostEffectPredicate {
            trait_ref: self.trait_ref.fold_with(cx, folder)?,
            constness: self.constness,
        })
    }
}

impl<I: Interner> TypeFoldable<I> for ProjectionPredicate<I::Key, I::Id> {
    fn fold_with<F: TypeFolder<I>>(&self, cx: &mut I, folder: &mut F) -> Result<Self, OutOfMemory> {
        let projection_term = self.projection_term.fold_with(cx, folder)?;
        let term = self.term.fold_with(cx, folder)?;
        Ok(ProjectionPredicate {
            projection_term,
            term,
        })
    }
}

impl<I: Interner> TypeFoldable<I> for NormalizesTo<I::Key, I::Id> {
    fn fold_with<F: TypeFolder<I>>(&self, cx: &mut I, folder: &mut F) -> Result<Self, OutOfMemory> {
        let alias = self.alias.fold_with(cx, folder)?;
        let term = self.term.fold_with(cx, folder)?;
        Ok(NormalizesTo { alias, term })
    }
}

impl<I: Interner> TypeFoldable<I> for OutlivesPredicate<I::Key, RegionKey<I::Key>> {
    fn fold_with<F: TypeFolder<I>>(&self, cx: &mut I, folder: &mut F) -> Result<Self, OutOfMemory> {
        let longer = fold_region_with(cx, &self.0, folder)?;
        let shorter = fold_region_with(cx, &self.1, folder)?;
        Ok(OutlivesPredicate(longer, shorter))
    }
}

impl<I: Interner> TypeFoldable<I> for OutlivesPredicate<I::Key, TyKey<I::Key>> {
    fn fold_with<F: TypeFolder<I>>(&self, cx: &mut I, folder: &mut F) -> Result<Self, OutOfMemory> {
        let longer = fold_ty_with(cx, &self.0, folder)?;
        let shorter = fold_region_with(cx, &self.1, folder)?;
        Ok(OutlivesPredicate(longer, shorter))
    }
}

impl<I: Interner> TypeFoldable<I> for SubtypePredicate<I::Key> {
    fn fold_with<F: TypeFolder<I>>(&self, cx: &mut I, folder: &mut F) -> Result<Self, OutOfMemory> {
        let a = fold_ty_with(cx, &self.a, folder)?;
        let b = fold_ty_with(cx, &self.b, folder)?;
        let a_is_expected = self.a_is_expected;
        Ok(SubtypePredicate {
            a_is_expected,
            a,
            b,
        })
    }
}

impl<I: Interner> TypeFoldable<I> for CoercePredicate<I::Key> {
    fn fold_with<F: TypeFolder<I>>(&self, cx: &mut I, folder: &mut F) -> Result<Self, OutOfMemory> {
        let a = fold_ty_with(cx, &self.a, folder)?;
        let b = fold_ty_with(cx, &self.b, folder)?;
        Ok(CoercePredicate { a, b })
    }
}
