//! Folds by keys: what a folder makes of a type, a region, a constant and of a list of arguments.
ghost use Rattle.std.specs.Prelude.{IsTrue, IfOk};
ghost use Rattle.relation_terms.specs.Trees.{known};
ghost use Rattle.relation_folds.specs.Folds.{Steps};
ghost use Rattle.relation_folds.specs.KeyFolds.{FoldsTy, FoldsTyParts, FoldsRegion, FoldsConst, FoldsConstParts};
ghost use Rattle.relation_folds.specs.KeyFolds.{FoldsArgs, LeavesTyAs, LeavesRegionAs, LeavesConstAs, LeavesArgsAs};

use crate::fold::TypeFolder;
use crate::fold::walk::{fold_list, fold_part, fold_parts};
use relation_terms::terms::parts::{expect_args, expect_const, expect_region, expect_ty};
use relation_terms::terms::{Const, GenericArgs, Interner, OutOfMemory, Part, Parts, Region, Ty};

/// What the folder makes of a type: what it puts for it, or else the type with its parts folded.
pub fn fold_ty_with<I: Interner, F: TypeFolder<I>>(
    cx: &mut I,
    ty: &Ty<I>,
    folder: &mut F,
) -> Result<Ty<I>, OutOfMemory>
    requires known { IsTrue (known ((I.meaning cx.old).ty ty.now)) }
    requires ready { F.ready (I.meaning cx.old) folder.old }
    ensures steps { Steps F.ready F.replaces (I.meaning cx.old) folder.old (I.meaning cx.new) folder.new }
    ensures sure { IfOk result (λ k. IsTrue (known ((I.meaning cx.new).ty k))) }
    ensures made { FoldsTy F.replaces (I.meaning cx.old) folder.old (I.meaning cx.new) ty.now result }
    ensures same { LeavesTyAs F.replaces (I.meaning cx.old) folder.old I.Key.eq ty.now result }
{
    Ok(expect_ty(&fold_part(cx, &Part::Ty(*ty), 0, folder)?))
}

/// The type with its parts folded, whatever the folder puts for the type itself.
pub fn super_fold_ty<I: Interner, F: TypeFolder<I>>(
    cx: &mut I,
    ty: &Ty<I>,
    folder: &mut F,
) -> Result<Ty<I>, OutOfMemory>
    requires known { IsTrue (known ((I.meaning cx.old).ty ty.now)) }
    requires ready { F.ready (I.meaning cx.old) folder.old }
    ensures steps { Steps F.ready F.replaces (I.meaning cx.old) folder.old (I.meaning cx.new) folder.new }
    ensures sure { IfOk result (λ k. IsTrue (known ((I.meaning cx.new).ty k))) }
    ensures made { FoldsTyParts F.replaces (I.meaning cx.old) folder.old (I.meaning cx.new) ty.now result }
{
    Ok(expect_ty(&fold_parts(cx, &Part::Ty(*ty), 0, folder)?))
}

/// What the folder makes of a region.
pub fn fold_region_with<I: Interner, F: TypeFolder<I>>(
    cx: &mut I,
    region: &Region<I>,
    folder: &mut F,
) -> Result<Region<I>, OutOfMemory>
    requires known { IsTrue (known ((I.meaning cx.old).region region.now)) }
    requires ready { F.ready (I.meaning cx.old) folder.old }
    ensures steps { Steps F.ready F.replaces (I.meaning cx.old) folder.old (I.meaning cx.new) folder.new }
    ensures sure { IfOk result (λ k. IsTrue (known ((I.meaning cx.new).region k))) }
    ensures made { FoldsRegion F.replaces (I.meaning cx.old) folder.old (I.meaning cx.new) region.now result }
    ensures same { LeavesRegionAs F.replaces (I.meaning cx.old) folder.old I.Key.eq region.now result }
{
    Ok(expect_region(&fold_part(cx, &Part::Region(*region), 0, folder)?))
}

/// What the folder makes of a constant: what it puts for it, or else the constant with its parts folded.
pub fn fold_const_with<I: Interner, F: TypeFolder<I>>(
    cx: &mut I,
    constant: &Const<I>,
    folder: &mut F,
) -> Result<Const<I>, OutOfMemory>
    requires known { IsTrue (known ((I.meaning cx.old).const_ constant.now)) }
    requires ready { F.ready (I.meaning cx.old) folder.old }
    ensures steps { Steps F.ready F.replaces (I.meaning cx.old) folder.old (I.meaning cx.new) folder.new }
    ensures sure { IfOk result (λ k. IsTrue (known ((I.meaning cx.new).const_ k))) }
    ensures made { FoldsConst F.replaces (I.meaning cx.old) folder.old (I.meaning cx.new) constant.now result }
    ensures same { LeavesConstAs F.replaces (I.meaning cx.old) folder.old I.Key.eq constant.now result }
{
    Ok(expect_const(&fold_part(cx, &Part::Const(*constant), 0, folder)?))
}

/// The constant with its parts folded, whatever the folder puts for the constant itself.
pub fn super_fold_const<I: Interner, F: TypeFolder<I>>(
    cx: &mut I,
    constant: &Const<I>,
    folder: &mut F,
) -> Result<Const<I>, OutOfMemory>
    requires known { IsTrue (known ((I.meaning cx.old).const_ constant.now)) }
    requires ready { F.ready (I.meaning cx.old) folder.old }
    ensures steps { Steps F.ready F.replaces (I.meaning cx.old) folder.old (I.meaning cx.new) folder.new }
    ensures sure { IfOk result (λ k. IsTrue (known ((I.meaning cx.new).const_ k))) }
    ensures made { FoldsConstParts F.replaces (I.meaning cx.old) folder.old (I.meaning cx.new) constant.now result }
{
    Ok(expect_const(&fold_parts(cx, &Part::Const(*constant), 0, folder)?))
}

/// The list with each generic argument folded.
pub fn fold_args_with<I: Interner, F: TypeFolder<I>>(
    cx: &mut I,
    args: &GenericArgs<I>,
    folder: &mut F,
) -> Result<GenericArgs<I>, OutOfMemory>
    requires known { IsTrue (known ((I.meaning cx.old).args args.now)) }
    requires ready { F.ready (I.meaning cx.old) folder.old }
    ensures steps { Steps F.ready F.replaces (I.meaning cx.old) folder.old (I.meaning cx.new) folder.new }
    ensures sure { IfOk result (λ k. IsTrue (known ((I.meaning cx.new).args k))) }
    ensures made { FoldsArgs F.replaces (I.meaning cx.old) folder.old (I.meaning cx.new) args.now result }
    ensures same { LeavesArgsAs F.replaces (I.meaning cx.old) folder.old I.Key.eq args.now result }
{
    Ok(expect_args(&fold_list(cx, &Parts::Args(*args), 0, folder)?))
}
