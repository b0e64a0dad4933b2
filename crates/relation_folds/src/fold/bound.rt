//! The body of a binder with terms for the variables that the binder binds.
ghost use Rattle.std.specs.Prelude.{◌≡◌, IsTrue, IfOk, map, nat_lt};
ghost use Rattle.relation_terms.specs.Trees.{known, list_tree};
ghost use Rattle.relation_terms.specs.Meaning.{Extends, arg_tree};
ghost use Rattle.relation_folds.specs.Shifts.{OpensBy, ShiftsBy, arg_for, expect_ty, expect_region, expect_const};

use crate::fold::{Fold, TypeFoldable, TypeFolder, shift_vars};
use relation_terms::terms::{
    BoundVar, Const, ConstKey, ConstKind, DebruijnIndex, GenericArg, GenericArgKind, Interner,
    OutOfMemory, Region, RegionKey, RegionKind, Ty, TyKey, TyKind, TypeFlags, region_flags,
};

/// The body of a binder with the arguments put for the binder's variables, each for the variable at its place of the
/// binder's list. What is put under further binders stays bound as it was. A variable at whose place there is no
/// argument of its kind stays, and so does what binders further out bind. The interner has to know body and arguments.
///
/// Answers `OutOfMemory` where a growth was refused, or where there is no number for an index; all keys mean then what
/// they did. Upstream's `instantiate_bound_regions` and its like, over all kinds of variables.
pub fn instantiate_bound_vars<I: Interner, T: TypeFoldable<I>>(
    cx: &mut I,
    body: &T,
    args: &[GenericArg<I>],
) -> Result<T, OutOfMemory>
    requires known { IsTrue (known (T.tree (I.meaning cx.old) body.now)) }
    requires args_known { IsTrue (known (list_tree (arg_tree (I.meaning cx.old)) args.now)) }
    ensures grown { Extends (I.meaning cx.old) (I.meaning cx.new) }
    ensures sure { IfOk result (λ x. IsTrue (known (T.tree (I.meaning cx.new) x))) }
    ensures made { OpensBy T.tree (I.meaning cx.old) (I.meaning cx.new) args.now body.now result }
{
    body.fold_with(cx, &mut BoundVarReplacer { args })
}

// The argument for a variable that the binder around the whole binds; and as a type, a region, a constant.
fn arg_for<X: Copy>(
    args: &[GenericArgKind<X>],
    index: &DebruijnIndex,
    var: &BoundVar,
    depth: u128,
) -> Option<GenericArgKind<X>>
    ensures { result ≡ arg_for args.now (index.now).0 (var.now).0 depth }
{
    if u128::from(index.0) != depth {
        return None;
    }
    args.get(var.0).copied()
}

fn ty_for<X: Copy>(
    args: &[GenericArgKind<X>],
    index: &DebruijnIndex,
    var: &BoundVar,
    depth: u128,
) -> Option<TyKey<X>>
    ensures { result ≡ expect_ty (arg_for args.now (index.now).0 (var.now).0 depth) }
{
    match arg_for(args, index, var, depth)? {
        GenericArgKind::Ty(ty) => Some(ty),
        GenericArgKind::Lifetime(_) | GenericArgKind::Const(_) => None,
    }
}

fn region_for<X: Copy>(
    args: &[GenericArgKind<X>],
    index: &DebruijnIndex,
    var: &BoundVar,
    depth: u128,
) -> Option<RegionKey<X>>
    ensures { result ≡ expect_region (arg_for args.now (index.now).0 (var.now).0 depth) }
{
    match arg_for(args, index, var, depth)? {
        GenericArgKind::Lifetime(region) => Some(region),
        GenericArgKind::Ty(_) | GenericArgKind::Const(_) => None,
    }
}

fn const_for<X: Copy>(
    args: &[GenericArgKind<X>],
    index: &DebruijnIndex,
    var: &BoundVar,
    depth: u128,
) -> Option<ConstKey<X>>
    ensures { result ≡ expect_const (arg_for args.now (index.now).0 (var.now).0 depth) }
{
    match arg_for(args, index, var, depth)? {
        GenericArgKind::Const(constant) => Some(constant),
        GenericArgKind::Lifetime(_) | GenericArgKind::Ty(_) => None,
    }
}

// Whether a variable stands in a term of these flags, under so many binders, that none of them binds.
fn escapes(flags: &TypeFlags, depth: u128) -> bool
    ensures { result ≡ nat_lt depth (flags.now).outer_exclusive_binder }
{
    depth < flags.outer_exclusive_binder
}

// What is put under so many binders. Under none it is as it was, and nothing is gone into.
fn moved_in<I: Interner, T: TypeFoldable<I> + Copy>(
    cx: &mut I,
    by: &T,
    depth: u128,
) -> Result<T, OutOfMemory>
    requires known { IsTrue (known (T.tree (I.meaning cx.old) by.now)) }
    ensures grown { Extends (I.meaning cx.old) (I.meaning cx.new) }
    ensures sure { IfOk result (λ x. IsTrue (known (T.tree (I.meaning cx.new) x))) }
    ensures made { ShiftsBy T.tree (I.meaning cx.old) (I.meaning cx.new) depth by.now result }
{
    if depth == 0 {
        return Ok(*by);
    }
    shift_vars(cx, by, depth)
}

// Puts arguments for the variables of the binder around the whole, and keeps each term from which nothing escapes,
// without going into it.
#[derive(Clone, Copy)]
struct BoundVarReplacer<'a, X> {
    args: &'a [GenericArgKind<X>],
}

impl<'a, I: Interner> TypeFolder<I> for BoundVarReplacer<'a, I::Key> {
    ghost use Rattle.std.specs.Prelude.{Some, cond, nat_lt};
    ghost use Rattle.relation_terms.specs.Flags.{outer_exclusive_binder};
    ghost use Rattle.relation_folds.specs.Shifts.{opens, knows_all, opened_stays};

    ghost ready = { λ m f. IsTrue (known (list_tree (arg_tree m) f.args.now)) };

    ghost replaces = { λ m f d t. let is_open = nat_lt d (outer_exclusive_binder t) in
        cond is_open (opens (map (arg_tree m) f.args.now) d t) (Some t) };

    fn fold_ty(&mut self, cx: &mut I, ty: &Ty<I>, depth: u128) -> Result<Fold<Ty<I>>, OutOfMemory> {
        if !escapes(&cx.ty_flags(ty), depth) {
            return Ok(Fold::Replace(*ty));
        }
        let TyKind::Bound(index, bound) = cx.ty_kind(ty) else {
            return Ok(Fold::Descend);
        };
        match ty_for(self.args, &index, &bound.var, depth) {
            Some(by) => Ok(Fold::Replace(moved_in(cx, &by, depth)?)),
            None => Ok(Fold::Descend),
        }
    }

    fn fold_region(
        &mut self,
        cx: &mut I,
        region: &Region<I>,
        depth: u128,
    ) -> Result<Fold<Region<I>>, OutOfMemory> {
        if !escapes(&region_flags(cx, region), depth) {
            return Ok(Fold::Replace(*region));
        }
        let RegionKind::ReBound(index, bound) = cx.region_kind(region) else {
            return Ok(Fold::Descend);
        };
        match region_for(self.args, &index, &bound.var, depth) {
            Some(by) => Ok(Fold::Replace(moved_in(cx, &by, depth)?)),
            None => Ok(Fold::Descend),
        }
    }

    fn fold_const(
        &mut self,
        cx: &mut I,
        constant: &Const<I>,
        depth: u128,
    ) -> Result<Fold<Const<I>>, OutOfMemory> {
        if !escapes(&cx.const_flags(constant), depth) {
            return Ok(Fold::Replace(*constant));
        }
        let ConstKind::Bound(index, bound) = cx.const_kind(constant) else {
            return Ok(Fold::Descend);
        };
        match const_for(self.args, &index, &bound.var, depth) {
            Some(by) => Ok(Fold::Replace(moved_in(cx, &by, depth)?)),
            None => Ok(Fold::Descend),
        }
    }

    ghost ready_on = { λ m n e f h. knows_all e f.args.now h };

    ghost replaces_on = { λ m n e f h d t. opened_stays e f.args.now h d t };
}
