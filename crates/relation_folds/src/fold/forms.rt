//! Folds of forms that have no key: signatures and predicates of trait objects.
use crate::fold::walk::{fold_list, fold_part};
use crate::fold::{TypeFoldable, TypeFolder, fold_args_with};
use relation_terms::predicate::{ExistentialPredicate, ExistentialProjection, ExistentialTraitRef};
use relation_terms::terms::parts::{expect_existential, expect_predicates, expect_signature};
use relation_terms::terms::{ExistentialPredicatesKey, FnSig, Interner, OutOfMemory, Part, Parts};

impl<I: Interner> TypeFoldable<I> for ExistentialPredicatesKey<I::Key> {
    fn fold_with<F: TypeFolder<I>>(&self, cx: &mut I, folder: &mut F) -> Result<Self, OutOfMemory> {
        Ok(expect_predicates(&fold_list(cx, &Parts::Predicates(*self), 0, folder)?))
    }
}

impl<I: Interner> TypeFoldable<I> for FnSig<I::Key> {
    fn fold_with<F: TypeFolder<I>>(&self, cx: &mut I, folder: &mut F) -> Result<Self, OutOfMemory> {
        Ok(expect_signature(&fold_part(cx, &Part::Signature(*self), 0, folder)?))
    }
}

impl<I: Interner> TypeFoldable<I> for ExistentialPredicate<I::Key, I::Id> {
    fn fold_with<F: TypeFolder<I>>(&self, cx: &mut I, folder: &mut F) -> Result<Self, OutOfMemory> {
        Ok(expect_existential(&fold_part(cx, &Part::Existential(*self), 0, folder)?))
    }
}

impl<I: Interner> TypeFoldable<I> for ExistentialTraitRef<I::Key, I::Id> {
    fn fold_with<F: TypeFolder<I>>(&self, cx: &mut I, folder: &mut F) -> Result<Self, OutOfMemory> {
        Ok(ExistentialTraitRef {
            def_id: self.def_id,
            args: fold_args_with(cx, &self.args, folder)?,
        })
    }
}

impl<I: Interner> TypeFoldable<I> for ExistentialProjection<I::Key, I::Id> {
    fn fold_with<F: TypeFolder<I>>(&self, cx: &mut I, folder: &mut F) -> Result<Self, OutOfMemory> {
        let term = self.term.fold_with(cx, folder)?;
        Ok(ExistentialProjection {
            def_id: self.def_id,
            args: fold_args_with(cx, &self.args, folder)?,
            term,
        })
    }
}
