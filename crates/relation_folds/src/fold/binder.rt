//! Folds of binders over anything that can be folded: what stands in the body stands one binder deeper.
ghost use Rattle.std.specs.Prelude.{◌≡◌, IsTrue, IfOk};
ghost use Rattle.relation_terms.specs.Trees.{known};
ghost use Rattle.relation_folds.specs.Folds.{Steps, folded};

use crate::fold::{Fold, TypeFoldable, TypeFolder};
use relation_terms::terms::{Binder, Const, Interner, OutOfMemory, Region, Ty};

// A folder that is told of one binder more than there are around what it is asked about.
#[derive(Drop)]
struct InBinder<'a, F> {
    folder: &'a mut F,
}

impl<'a, F> InBinder<'a, F> {
    // What the folder makes of a body.
    fn fold_body<I: Interner, T: TypeFoldable<I>>(
        &mut self,
        cx: &mut I,
        body: &T,
    ) -> Result<T, OutOfMemory>
    where
        F: TypeFolder<I>,
        requires known { IsTrue (known (T.tree (I.meaning cx.old) body.now)) }
        requires ready { F.ready (I.meaning cx.old) self.old.folder.now }
        ensures same_reference { self.new.folder.ghost_name ≡ self.old.folder.ghost_name }
        ensures steps { Steps F.ready F.replaces (I.meaning cx.old) self.old.folder.now
            (I.meaning cx.new) self.new.folder.now }
        ensures sure { IfOk result (λ x. IsTrue (known (T.tree (I.meaning cx.new) x))) }
        ensures made { IfOk result (λ x. T.tree (I.meaning cx.new) x ≡
            folded (F.replaces (I.meaning cx.old) self.old.folder.now) 1 (T.tree (I.meaning cx.old) body.now)) }
        ensures same { IfOk result (λ x.
            folded (F.replaces (I.meaning cx.old) self.old.folder.now) 1 (T.tree (I.meaning cx.old) body.now) ≡
            T.tree (I.meaning cx.old) body.now → IsTrue (T.eq x body.now)) }
    {
        body.fold_with(cx, self)
    }

    // The folder that it stands for.
    fn into_folder(self) -> &'a mut F
        ensures same_reference { result.ghost_name ≡ self.entry.folder.ghost_name }
        ensures value { result.now ≡ self.entry.folder.now }
    {
        let InBinder { folder } = self;
        folder
    }
}

impl<'a, I: Interner, F: TypeFolder<I>> TypeFolder<I> for InBinder<'a, F> {
    ghost use Rattle.std.specs.Prelude.{refl};
    ghost use Rattle.relation_folds.specs.InBinders.{in_binder, in_binder_kept};

    ghost ready = { λ m f. F.ready m f.folder.now };

    ghost replaces = { λ m f. in_binder f.folder.ghost_name (F.replaces m f.folder.now) };

    fn fold_ty(&mut self, cx: &mut I, ty: &Ty<I>, depth: u128) -> Result<Fold<Ty<I>>, OutOfMemory> {
        let deeper = depth.checked_add(1).ok_or(OutOfMemory)?;
        self.folder.fold_ty(cx, ty, deeper)
    }

    fn fold_region(
        &mut self,
        cx: &mut I,
        region: &Region<I>,
        depth: u128,
    ) -> Result<Fold<Region<I>>, OutOfMemory> {
        let deeper = depth.checked_add(1).ok_or(OutOfMemory)?;
        self.folder.fold_region(cx, region, deeper)
    }

    fn fold_const(
        &mut self,
        cx: &mut I,
        constant: &Const<I>,
        depth: u128,
    ) -> Result<Fold<Const<I>>, OutOfMemory> {
        let deeper = depth.checked_add(1).ok_or(OutOfMemory)?;
        self.folder.fold_const(cx, constant, deeper)
    }

    ghost ready_on = { λ m n e f h. F.ready_on m n e f.folder.now h };

    ghost replaces_on = { λ m n e f h d t. in_binder_kept f.folder.ghost_name f.folder.ghost_name refl
        (F.replaces m f.folder.now) (F.replaces n f.folder.now) (F.replaces_on m n e f.folder.now h) d t };
}

impl<I: Interner, T: TypeFoldable<I>> TypeFoldable<I> for Binder<I::Key, T> {
    fn fold_with<F: TypeFolder<I>>(&self, cx: &mut I, folder: &mut F) -> Result<Self, OutOfMemory> {
        let mut inside = InBinder { folder };
        let body = inside.fold_body(cx, &self.value);
        let _folder = inside.into_folder();
        Ok(Binder {
            value: body?,
            bound_vars: self.bound_vars,
        })
    }
}
