//! What can be folded: keys of terms, generic arguments, terms of projections, and pairs in errors.

use crate::error::ExpectedFound;
use crate::fold::walk::{fold_list, fold_part};
use crate::fold::{
    TypeFoldable, TypeFolder, fold_args_with, fold_const_with, fold_region_with, fold_ty_with,
};
use relation_terms::terms::parts::{
    expect_alternatives, expect_branches, expect_pat, expect_tys, expect_valtree,
};
use relation_terms::terms::{
    AlternativesKey, ArgsKey, BranchesKey, ConstKey, GenericArgKind, Interner, OutOfMemory, Part,
    Parts, PatKey, RegionKey, TermKind, TyKey, TysKey, ValTreeKey,
};

impl<I: Interner> TypeFoldable<I> for TyKey<I::Key> {
    fn fold_with<F: TypeFolder<I>>(&self, cx: &mut I, folder: &mut F) -> Result<Self, OutOfMemory> {
        fold_ty_with(cx, self, folder)
    }
}

impl<I: Interner> TypeFoldable<I> for RegionKey<I::Key> {
    fn fold_with<F: TypeFolder<I>>(&self, cx: &mut I, folder: &mut F) -> Result<Self, OutOfMemory> {
        fold_region_with(cx, self, folder)
    }
}

impl<I: Interner> TypeFoldable<I> for ConstKey<I::Key> {
    fn fold_with<F: TypeFolder<I>>(&self, cx: &mut I, folder: &mut F) -> Result<Self, OutOfMemory> {
        fold_const_with(cx, self, folder)
    }
}

impl<I: Interner> TypeFoldable<I> for ArgsKey<I::Key> {
    fn fold_with<F: TypeFolder<I>>(&self, cx: &mut I, folder: &mut F) -> Result<Self, OutOfMemory> {
        fold_args_with(cx, self, folder)
    }
}

impl<I: Interner> TypeFoldable<I> for TysKey<I::Key> {
    fn fold_with<F: TypeFolder<I>>(&self, cx: &mut I, folder: &mut F) -> Result<Self, OutOfMemory> {
        Ok(expect_tys(&fold_list(cx, &Parts::Tys(*self), 0, folder)?))
    }
}

impl<I: Interner> TypeFoldable<I> for ValTreeKey<I::Key> {
    fn fold_with<F: TypeFolder<I>>(&self, cx: &mut I, folder: &mut F) -> Result<Self, OutOfMemory> {
        Ok(expect_valtree(&fold_part(cx, &Part::ValTree(*self), 0, folder)?))
    }
}

impl<I: Interner> TypeFoldable<I> for BranchesKey<I::Key> {
    fn fold_with<F: TypeFolder<I>>(&self, cx: &mut I, folder: &mut F) -> Result<Self, OutOfMemory> {
        Ok(expect_branches(&fold_list(cx, &Parts::Branches(*self), 0, folder)?))
    }
}

impl<I: Interner> TypeFoldable<I> for PatKey<I::Key> {
    fn fold_with<F: TypeFolder<I>>(&self, cx: &mut I, folder: &mut F) -> Result<Self, OutOfMemory> {
        Ok(expect_pat(&fold_part(cx, &Part::Pat(*self), 0, folder)?))
    }
}

impl<I: Interner> TypeFoldable<I> for AlternativesKey<I::Key> {
    fn fold_with<F: TypeFolder<I>>(&self, cx: &mut I, folder: &mut F) -> Result<Self, OutOfMemory> {
        Ok(expect_alternatives(&fold_list(cx, &Parts::Alternatives(*self), 0, folder)?))
    }
}

impl<I: Interner> TypeFoldable<I> for GenericArgKind<I::Key> {
    fn fold_with<F: TypeFolder<I>>(&self, cx: &mut I, folder: &mut F) -> Result<Self, OutOfMemory> {
        match self {
            GenericArgKind::Lifetime(region) => {
                Ok(GenericArgKind::Lifetime(fold_region_with(cx, region, folder)?))
            }
            GenericArgKind::Ty(ty) => Ok(GenericArgKind::Ty(fold_ty_with(cx, ty, folder)?)),
            GenericArgKind::Const(constant) => {
                Ok(GenericArgKind::Const(fold_const_with(cx, constant, folder)?))
            }
        }
    }
}

impl<I: Interner> TypeFoldable<I> for TermKind<I::Key> {
    fn fold_with<F: TypeFolder<I>>(&self, cx: &mut I, folder: &mut F) -> Result<Self, OutOfMemory> {
        match self {
            TermKind::Ty(ty) => Ok(TermKind::Ty(fold_ty_with(cx, ty, folder)?)),
            TermKind::Const(constant) => Ok(TermKind::Const(fold_const_with(
                cx, constant, folder,
            )?)),
        }
    }
}

impl<I: Interner, T: TypeFoldable<I> + Copy> TypeFoldable<I> for ExpectedFound<T> {
    fn fold_with<F: TypeFolder<I>>(&self, cx: &mut I, folder: &mut F) -> Result<Self, OutOfMemory> {
        let expected = self.expected.fold_with(cx, folder)?;
        let found = self.found.fold_with(cx, folder)?;
        Ok(ExpectedFound { expected, found })
    }
}
