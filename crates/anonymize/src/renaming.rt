//! What a binder binds, by one name for all and by other places.
ghost use Rattle.std.specs.Prelude.{◌≡◌, IsTrue, IfOk, None, cond, nat_eq, map, option_map};
ghost use Rattle.relation_terms.specs.Trees.{known};
ghost use Rattle.relation_terms.specs.Meaning.{Extends};
ghost use Rattle.anonymize.specs.Anonymous.{place_in, named_as, IsRenamed};

use crate::used::{UsedVar, place_of};
use relation_folds::fold::{Fold, TypeFoldable, TypeFolder};
use relation_terms::terms::{
    BoundConst, BoundRegion, BoundTy, BoundVar, BoundVariableKind, Const, ConstKind, DebruijnIndex,
    Interner, OutOfMemory, Region, RegionKind, Ty, TyKind,
};
use std::alloc::Global;

// A variable of a binder by a name.
fn named_as<N: Copy>(name: N, var: &UsedVar) -> BoundVariableKind<N>
    ensures { result ≡ named_as name var.now }
{
    match var {
        UsedVar::Ty(_) => BoundVariableKind::Ty(name),
        UsedVar::Region(_) => BoundVariableKind::Region(name),
        UsedVar::Const(_) => BoundVariableKind::Const(name),
    }
}

/// The variables of a list by one name for all.
pub fn named_vars<N: Copy>(
    vars: &[UsedVar],
    name: N,
    alloc: Global,
) -> Result<Vec<BoundVariableKind<N>>, OutOfMemory>
    ensures { IfOk result (λ list. list.items ≡ map (named_as name) vars.now) }
{
    let mut list = Vec::new(alloc);
    for var in vars {
        list.push(named_as(name, var))?;
    }
    Ok(list)
}

// The place in a list of a variable that the binder around the whole binds, `depth` binders further in.
fn new_place(
    used: &[UsedVar],
    index: &DebruijnIndex,
    depth: u128,
    var: &UsedVar,
) -> Option<BoundVar>
    ensures { option_map (λ v. v.0) result ≡ cond (nat_eq (index.now).0 depth) (place_in used.now var.now) None }
{
    if u128::from(index.0) != depth {
        return None;
    }
    match place_of(used, var) {
        Some(place) => Some(BoundVar(place)),
        None => None,
    }
}

// Puts for each variable of the binder around the whole the one at its place in a list.
#[derive(Clone, Copy)]
struct Renamer<'a, N> {
    used: &'a [UsedVar],
    name: N,
}

impl<'a, I: Interner> TypeFolder<I> for Renamer<'a, I::Name> {
    ghost use Rattle.std.specs.Prelude.{◌≡◌};
    ghost use Rattle.anonymize.specs.Anonymous.{renames, renames_stays};

    ghost ready = { λ m f. Unit {0} };

    ghost replaces = { λ m f. renames (m.name f.name) f.used.now };

    fn fold_ty(&mut self, cx: &mut I, ty: &Ty<I>, depth: u128) -> Result<Fold<Ty<I>>, OutOfMemory> {
        let TyKind::Bound(index, bound) = cx.ty_kind(ty) else {
            return Ok(Fold::Descend);
        };
        let name = self.name;
        match new_place(self.used, &index, depth, &UsedVar::Ty(bound.var.0)) {
            Some(var) => {
                let by = cx.mk_ty(TyKind::Bound(index, BoundTy { var, name }))?;
                Ok(Fold::Replace(by))
            }
            None => Ok(Fold::Descend),
        }
    }

    fn fold_region(
        &mut self,
        cx: &mut I,
        region: &Region<I>,
        depth: u128,
    ) -> Result<Fold<Region<I>>, OutOfMemory> {
        let RegionKind::ReBound(index, bound) = cx.region_kind(region) else {
            return Ok(Fold::Descend);
        };
        let name = self.name;
        match new_place(self.used, &index, depth, &UsedVar::Region(bound.var.0)) {
            Some(var) => {
                let by = cx.mk_region(RegionKind::ReBound(index, BoundRegion { var, name }))?;
                Ok(Fold::Replace(by))
            }
            None => Ok(Fold::Descend),
        }
    }

    fn fold_const(
        &mut self,
        cx: &mut I,
        constant: &Const<I>,
        depth: u128,
    ) -> Result<Fold<Const<I>>, OutOfMemory> {
        let ConstKind::Bound(index, bound) = cx.const_kind(constant) else {
            return Ok(Fold::Descend);
        };
        let name = self.name;
        match new_place(self.used, &index, depth, &UsedVar::Const(bound.var.0)) {
            Some(var) => {
                let by = cx.mk_const(ConstKind::Bound(index, BoundConst { var, name }))?;
                Ok(Fold::Replace(by))
            }
            None => Ok(Fold::Descend),
        }
    }

    ghost ready_on = { λ m n e f h. tt };

    ghost replaces_on = { λ m n e f h d t. renames_stays e f.name f.used.now d t };
}

/// A body with the variables of the binder around it that stand in a list put at their places there, by one name for
/// all. Where the list is empty, that is the body. The interner has to know the body.
pub fn rename_bound_vars<I: Interner, T: TypeFoldable<I> + Copy>(
    cx: &mut I,
    body: &T,
    used: &[UsedVar],
    name: I::Name,
) -> Result<T, OutOfMemory>
    requires { IsTrue (known (T.tree (I.meaning cx.old) body.now)) }
    ensures grown { Extends (I.meaning cx.old) (I.meaning cx.new) }
    ensures sure { IfOk result (λ x. IsTrue (known (T.tree (I.meaning cx.new) x))) }
    ensures made { IfOk result (λ x. IsRenamed T.tree (I.meaning cx.old) (I.meaning cx.new) name used.now body.now x) }
{
    if used.is_empty() {
        return Ok(*body);
    }
    body.fold_with(cx, &mut Renamer { used, name })
}
