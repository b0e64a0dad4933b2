//! Folds of goals, and of what is recorded of regions.
ghost use Rattle.std.specs.Prelude.{◌≡◌, IsTrue, IfOk};
ghost use Rattle.relation_terms.specs.Trees.{known};
ghost use Rattle.relation_folds.specs.Folds.{Steps, folded};
ghost use Rattle.relation_folds.specs.Goals.{two_trees};

use crate::fold::{TypeFoldable, TypeFolder};
use relation_terms::predicate::{OutlivesPredicate, RegionConstraint, RegionEqPredicate};
use relation_terms::terms::{GenericArgKind, Goal, Interner, OutOfMemory};

// What the folder makes of two things, one after the other.
fn fold_two<I: Interner, T: TypeFoldable<I> + Copy, U: TypeFoldable<I> + Copy, F: TypeFolder<I>>(
    cx: &mut I,
    first: &T,
    second: &U,
    folder: &mut F,
) -> Result<(T, U), OutOfMemory>
    requires known { let m = I.meaning cx.old in
        IsTrue (known (two_trees (T.tree m first.now) (U.tree m second.now))) }
    requires ready { F.ready (I.meaning cx.old) folder.old }
    ensures steps { Steps F.ready F.replaces (I.meaning cx.old) folder.old (I.meaning cx.new) folder.new }
    ensures sure { let n = I.meaning cx.new in
        IfOk result (λ both. IsTrue (known (two_trees (T.tree n both.0) (U.tree n both.1)))) }
    ensures made { let m = I.meaning cx.old in let n = I.meaning cx.new in
        IfOk result (λ both. two_trees (T.tree n both.0) (U.tree n both.1) ≡
        folded (F.replaces m folder.old) 0 (two_trees (T.tree m first.now) (U.tree m second.now))) }
    ensures same { let m = I.meaning cx.old in let t = two_trees (T.tree m first.now) (U.tree m second.now) in
        IfOk result (λ both. folded (F.replaces m folder.old) 0 t ≡ t →
        IsTrue (T.eq both.0 first.now) × IsTrue (U.eq both.1 second.now)) }
{
    let new_first = first.fold_with(cx, folder)?;
    let new_second = second.fold_with(cx, folder)?;
    Ok((new_first, new_second))
}

impl<I: Interner> TypeFoldable<I> for OutlivesPredicate<I::Key, GenericArgKind<I::Key>> {
    fn fold_with<F: TypeFolder<I>>(&self, cx: &mut I, folder: &mut F) -> Result<Self, OutOfMemory> {
        let (longer, shorter) = fold_two(cx, &self.0, &self.1, folder)?;
        Ok(OutlivesPredicate(longer, shorter))
    }
}

impl<I: Interner> TypeFoldable<I> for RegionEqPredicate<I::Key> {
    fn fold_with<F: TypeFolder<I>>(&self, cx: &mut I, folder: &mut F) -> Result<Self, OutOfMemory> {
        let (a, b) = fold_two(cx, &self.0, &self.1, folder)?;
        Ok(RegionEqPredicate(a, b))
    }
}

impl<I: Interner> TypeFoldable<I> for RegionConstraint<I::Key> {
    fn fold_with<F: TypeFolder<I>>(&self, cx: &mut I, folder: &mut F) -> Result<Self, OutOfMemory> {
        match self {
            RegionConstraint::Outlives(outlives) => {
                Ok(RegionConstraint::Outlives(outlives.fold_with(cx, folder)?))
            }
            RegionConstraint::Eq(equal) => Ok(RegionConstraint::Eq(equal.fold_with(cx, folder)?)),
        }
    }
}

impl<I: Interner, P: TypeFoldable<I> + Copy> TypeFoldable<I> for Goal<I::Key, P> {
    fn fold_with<F: TypeFolder<I>>(&self, cx: &mut I, folder: &mut F) -> Result<Self, OutOfMemory> {
        let (param_env, predicate) = fold_two(cx, &self.param_env, &self.predicate, folder)?;
        Ok(Goal {
            param_env,
            predicate,
        })
    }
}
