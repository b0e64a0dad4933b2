//! A clause that a trait states, for a type that implements the trait.
ghost use Rattle.std.specs.Prelude.{◌≡◌, ◌+◌, IsTrue, IsSome, IfOk, IfSome, Some};
ghost use Rattle.std.specs.Prelude.{None, cond, nat_eq, option_map, slice_get};
ghost use Rattle.relation_terms.specs.Trees.{known};
ghost use Rattle.relation_terms.specs.Meaning.{Extends, arg_tree};
ghost use Rattle.relation_terms.specs.Owned.{bound_tree};
ghost use Rattle.relation_folds.specs.Shifts.{expect_ty, expect_region, expect_const};
ghost use Rattle.relation_statements.specs.Stated.{member, Instantiates, Joins};

use relation_folds::fold::{Fold, TypeFoldable, TypeFolder, shift_vars};
use relation_terms::predicate::TraitRef;
use relation_terms::terms::{
    ArgsKey, Binder, BoundConst, BoundRegion, BoundTy, BoundVar, BoundVariable, BoundVars, Clause,
    Const, ConstKey, ConstKind, DebruijnIndex, GenericArg, GenericArgKind, GenericArgs, Interner,
    OutOfMemory, Region, RegionKey, RegionKind, Ty, TyKey, TyKind,
};

/// A clause that a trait states, of a type that implements the trait: for each parameter of the trait stands what the
/// trait reference has at its index, where that is of the parameter's kind. The clause stands under a binder of the
/// trait reference's variables, and behind them its own. The interner has to know both.
///
/// Answers `OutOfMemory` where a growth was refused, or where there is no number for an index or a place; all keys mean
/// then what they did. Upstream's method of that name of a clause.
pub fn instantiate_supertrait<I: Interner>(
    cx: &mut I,
    clause: &Clause<I>,
    trait_ref: &Binder<I::Key, TraitRef<I::Key, I::Id>>,
) -> Result<Clause<I>, OutOfMemory>
    requires clause { IsTrue (known ((I.meaning cx.old).clause clause.now)) }
    requires trait_ref { IsTrue (known (bound_tree (I.meaning cx.old) trait_ref.now)) }
    ensures grown { Extends (I.meaning cx.old) (I.meaning cx.new) }
    ensures sure { IfOk result (λ k. IsTrue (known ((I.meaning cx.new).clause k))) }
    ensures made { IfOk result (λ k. Instantiates (I.meaning cx.old) (I.meaning cx.new) trait_ref.now clause.now k) }
{
    let outer = cx.bound_vars(&trait_ref.bound_vars).len();
    let form = cx.clause_kind(clause);
    let mut instantiator = Instantiator {
        outer,
        args: trait_ref.value.args,
    };
    let value = form.value.fold_with(cx, &mut instantiator)?;
    // Where nothing is bound around the trait reference, the clause's own list is the joined one.
    if outer == 0 {
        let bound_vars = form.bound_vars;
        return cx.mk_clause(Binder { value, bound_vars });
    }
    let vars = joined_vars(cx, &trait_ref.bound_vars, &form.bound_vars)?;
    let bound_vars = cx.mk_bound_vars(&vars)?;
    cx.mk_clause(Binder { value, bound_vars })
}

// The variables of two binders, one list behind the other.
fn joined_vars<I: Interner>(
    cx: &I,
    first: &BoundVars<I>,
    second: &BoundVars<I>,
) -> Result<Vec<BoundVariable<I>>, OutOfMemory>
    requires first { IsSome ((I.meaning cx.now).bound_vars first.now) }
    requires second { IsSome ((I.meaning cx.now).bound_vars second.now) }
    ensures { IfOk result (λ vars. Joins (I.meaning cx.now) first.now second.now vars.items) }
{
    let mut vars = Vec::new(cx.alloc());
    vars.extend_from_slice(cx.bound_vars(first))?;
    vars.extend_from_slice(cx.bound_vars(second))?;
    Ok(vars)
}

// The argument at an index, if there is one; and as a type, a region, a constant.
fn arg_at<I: Interner>(cx: &I, args: &GenericArgs<I>, index: u32) -> Option<GenericArg<I>>
    requires { IsTrue (known ((I.meaning cx.now).args args.now)) }
    ensures is { option_map (arg_tree (I.meaning cx.now)) result ≡ member ((I.meaning cx.now).args args.now) index }
    ensures sure { IfSome result (λ a. IsTrue (known (arg_tree (I.meaning cx.now) a))) }
{
    member_at(cx.args(args), index)
}

fn member_at<X: Copy>(args: &[GenericArgKind<X>], index: u32) -> Option<GenericArgKind<X>>
    ensures { result ≡ slice_get args.now index }
{
    args.get(index as usize).copied()
}

fn as_ty<X: Copy>(arg: Option<GenericArgKind<X>>) -> Option<TyKey<X>>
    ensures { result ≡ expect_ty arg }
{
    match arg? {
        GenericArgKind::Ty(ty) => Some(ty),
        GenericArgKind::Lifetime(_) | GenericArgKind::Const(_) => None,
    }
}

fn as_region<X: Copy>(arg: Option<GenericArgKind<X>>) -> Option<RegionKey<X>>
    ensures { result ≡ expect_region arg }
{
    match arg? {
        GenericArgKind::Lifetime(region) => Some(region),
        GenericArgKind::Ty(_) | GenericArgKind::Const(_) => None,
    }
}

fn as_const<X: Copy>(arg: Option<GenericArgKind<X>>) -> Option<ConstKey<X>>
    ensures { result ≡ expect_const arg }
{
    match arg? {
        GenericArgKind::Const(constant) => Some(constant),
        GenericArgKind::Lifetime(_) | GenericArgKind::Ty(_) => None,
    }
}

// The place, so many further on, of a variable that the clause's own binder binds.
fn moved_place(
    outer: usize,
    index: &DebruijnIndex,
    var: &BoundVar,
    depth: u128,
) -> Result<Option<BoundVar>, OutOfMemory>
    ensures { IfOk result (λ o. option_map (λ v. v.0) o ≡
        cond (nat_eq (index.now).0 depth) (Some (outer + (var.now).0)) None) }
{
    if u128::from(index.0) != depth {
        return Ok(None);
    }
    match outer.checked_add(var.0) {
        Some(place) => Ok(Some(BoundVar(place))),
        None => Err(OutOfMemory),
    }
}

// Puts arguments for parameters, and moves the variables of the clause's own binder.
#[derive(Clone, Copy)]
struct Instantiator<X> {
    outer: usize,
    args: ArgsKey<X>,
}

impl<I: Interner> TypeFolder<I> for Instantiator<I::Key> {
    ghost use Rattle.std.specs.Prelude.{IsTrue};
    ghost use Rattle.std.proofs.Common.{ap};
    ghost use Rattle.relation_terms.specs.Trees.{known};
    ghost use Rattle.relation_terms.proofs.Stays.{knows_args};
    ghost use Rattle.relation_statements.specs.Stated.{stands_for};

    ghost ready = { λ m f. IsTrue (known (m.args f.args)) };

    ghost replaces = { λ m f. stands_for f.outer (m.args f.args) };

    fn fold_ty(&mut self, cx: &mut I, ty: &Ty<I>, depth: u128) -> Result<Fold<Ty<I>>, OutOfMemory> {
        match cx.ty_kind(ty) {
            TyKind::Param(param) => match as_ty(arg_at(cx, &self.args, param.index)) {
                Some(by) => Ok(Fold::Replace(shift_vars(cx, &by, depth)?)),
                None => Ok(Fold::Descend),
            },
            TyKind::Bound(index, bound) => {
                let name = bound.name;
                match moved_place(self.outer, &index, &bound.var, depth)? {
                    Some(var) => Ok(Fold::Replace(cx.mk_ty(TyKind::Bound(
                        index,
                        BoundTy { var, name },
                    ))?)),
                    None => Ok(Fold::Descend),
                }
            }
            _ => Ok(Fold::Descend),
        }
    }

    fn fold_region(
        &mut self,
        cx: &mut I,
        region: &Region<I>,
        depth: u128,
    ) -> Result<Fold<Region<I>>, OutOfMemory> {
        match cx.region_kind(region) {
            RegionKind::ReEarlyParam(param) => {
                match as_region(arg_at(cx, &self.args, param.index)) {
                    Some(by) => Ok(Fold::Replace(shift_vars(cx, &by, depth)?)),
                    None => Ok(Fold::Descend),
                }
            }
            RegionKind::ReBound(index, bound) => {
                let name = bound.name;
                match moved_place(self.outer, &index, &bound.var, depth)? {
                    Some(var) => Ok(Fold::Replace(cx.mk_region(RegionKind::ReBound(
                        index,
                        BoundRegion { var, name },
                    ))?)),
                    None => Ok(Fold::Descend),
                }
            }
            _ => Ok(Fold::Descend),
        }
    }

    fn fold_const(
        &mut self,
        cx: &mut I,
        constant: &Const<I>,
        depth: u128,
    ) -> Result<Fold<Const<I>>, OutOfMemory> {
        match cx.const_kind(constant) {
            ConstKind::Param(param) => match as_const(arg_at(cx, &self.args, param.index)) {
                Some(by) => Ok(Fold::Replace(shift_vars(cx, &by, depth)?)),
                None => Ok(Fold::Descend),
            },
            ConstKind::Bound(index, bound) => {
                let name = bound.name;
                match moved_place(self.outer, &index, &bound.var, depth)? {
                    Some(var) => Ok(Fold::Replace(cx.mk_const(ConstKind::Bound(
                        index,
                        BoundConst { var, name },
                    ))?)),
                    None => Ok(Fold::Descend),
                }
            }
            _ => Ok(Fold::Descend),
        }
    }

    ghost ready_on = { λ m n e f h. knows_args e f.args h };

    ghost replaces_on = { λ m n e f h d t. ap (λ z. stands_for f.outer z d t) (e.args f.args h) };
}
