//! The smallest folder: it puts a type for the type parameter of an index.
ghost use Rattle.std.specs.Prelude.{◌≡◌, IsTrue, IfOk};
ghost use Rattle.relation_terms.specs.Trees.{known};
ghost use Rattle.relation_terms.specs.Meaning.{Extends};
ghost use Rattle.relation_folds.specs.Folds.{folded};
ghost use Rattle.examples.specs.Puts.{put_for_param};

use relation_folds::fold::{Fold, TypeFoldable, TypeFolder};
use relation_terms::terms::{Const, Interner, OutOfMemory, Region, Ty, TyKey, TyKind};

/// Puts the type `by` for the type parameter of an index.
#[derive(Clone, Copy)]
pub struct PutsForParam<X> {
    pub index: u32,
    pub by: TyKey<X>,
}

/// It needs an interner that knows what it puts, and puts that tree.
impl<I: Interner> TypeFolder<I> for PutsForParam<I::Key> {
    ghost use Rattle.std.specs.Prelude.{IsTrue};
    ghost use Rattle.std.proofs.Common.{ap};
    ghost use Rattle.relation_terms.specs.Trees.{known};
    ghost use Rattle.relation_terms.proofs.Stays.{knows_ty};
    ghost use Rattle.examples.specs.Puts.{put_for_param};

    ghost ready = { λ m f. IsTrue (known (m.ty f.by)) };

    ghost replaces = { λ m f d t. put_for_param f.index (m.ty f.by) t };

    #[tactic(auto, using(relation_terms::proofs::Stays::stays_same))]
    fn fold_ty(
        &mut self,
        cx: &mut I,
        ty: &Ty<I>,
        _depth: u128,
    ) -> Result<Fold<Ty<I>>, OutOfMemory> {
        match cx.ty_kind(ty) {
            TyKind::Param(param) if param.index == self.index => Ok(Fold::Replace(self.by)),
            _ => Ok(Fold::Descend),
        }
    }

    #[tactic(auto, using(relation_terms::proofs::Stays::stays_same))]
    fn fold_region(
        &mut self,
        cx: &mut I,
        region: &Region<I>,
        _depth: u128,
    ) -> Result<Fold<Region<I>>, OutOfMemory> {
        // (reading shows that it is no type parameter)
        let _ = cx.region_kind(region);
        Ok(Fold::Descend)
    }

    #[tactic(auto, using(relation_terms::proofs::Stays::stays_same))]
    fn fold_const(
        &mut self,
        cx: &mut I,
        constant: &Const<I>,
        _depth: u128,
    ) -> Result<Fold<Const<I>>, OutOfMemory> {
        let _ = cx.const_kind(constant);
        Ok(Fold::Descend)
    }

    ghost ready_on = { λ m n e f r. knows_ty e f.by r };

    ghost replaces_on = { λ m n e f r d t. ap (λ by. put_for_param f.index by t) (e.ty f.by r) };
}

/// The type with another one in the place of the type parameter of an index. The interner has to know both.
pub fn put_for_param<I: Interner>(
    cx: &mut I,
    ty: &Ty<I>,
    index: u32,
    by: Ty<I>,
) -> Result<Ty<I>, OutOfMemory>
    requires known { IsTrue (known ((I.meaning cx.old).ty ty.now)) }
    requires by_known { IsTrue (known ((I.meaning cx.old).ty by)) }
    ensures grown { Extends (I.meaning cx.old) (I.meaning cx.new) }
    ensures sure { IfOk result (λ k. IsTrue (known ((I.meaning cx.new).ty k))) }
    ensures made { let put = (I.meaning cx.old).ty by in
        IfOk result (λ k. (I.meaning cx.new).ty k ≡
        folded (λ d. put_for_param index put) 0 ((I.meaning cx.old).ty ty.now)) }
{
    ty.fold_with(cx, &mut PutsForParam { index, by })
}
