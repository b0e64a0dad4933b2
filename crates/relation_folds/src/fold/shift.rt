//! Terms moved under further binders: what binders outside bind stays bound by them.
ghost use Rattle.std.specs.Prelude.{◌≡◌, ◌+◌, ◌&&◌, ⊤, IsTrue, IfOk, Some, None, cond, not, nat_eq, nat_lt};
ghost use Rattle.std.specs.Prelude.{option_map};
ghost use Rattle.relation_terms.specs.Trees.{known};
ghost use Rattle.relation_terms.specs.Meaning.{Extends};
ghost use Rattle.relation_folds.specs.Shifts.{ShiftsBy};

use crate::fold::{Fold, TypeFoldable, TypeFolder};
use relation_terms::terms::{
    Const, ConstKind, DebruijnIndex, Interner, OutOfMemory, Region, RegionKind, Ty, TyKind,
    TypeFlags, region_flags,
};

/// The term as it stands under `amount` more binders: a variable that a binder outside the term binds is bound by the
/// same one there. The interner has to know the term.
///
/// Answers `OutOfMemory` where a growth was refused, or where there is no number for an index; all keys mean then what
/// they did. Upstream's `shift_vars`.
pub fn shift_vars<I: Interner, T: TypeFoldable<I>>(
    cx: &mut I,
    term: &T,
    amount: u128,
) -> Result<T, OutOfMemory>
    requires known { IsTrue (known (T.tree (I.meaning cx.old) term.now)) }
    ensures grown { Extends (I.meaning cx.old) (I.meaning cx.new) }
    ensures sure { IfOk result (λ x. IsTrue (known (T.tree (I.meaning cx.new) x))) }
    ensures made { ShiftsBy T.tree (I.meaning cx.old) (I.meaning cx.new) amount term.now result }
{
    term.fold_with(cx, &mut Shifter { amount })
}

// The index further in, of a variable that none of the binders around it binds.
fn moved(index: &DebruijnIndex, depth: u128, by: u128) -> Result<Option<DebruijnIndex>, OutOfMemory>
    ensures { IfOk result (λ o. option_map (λ i. i.0) o ≡
        cond (nat_lt (index.now).0 depth) None (Some ((index.now).0 + by))) }
{
    let old = u128::from(index.0);
    if old < depth {
        return Ok(None);
    }
    let new = old.checked_add(by).ok_or(OutOfMemory)?;
    match u64::try_from(new) {
        Ok(new) => Ok(Some(DebruijnIndex(new))),
        Err(_) => Err(OutOfMemory),
    }
}

// Whether a move changes a term of these flags under so many binders.
fn changes(flags: &TypeFlags, depth: u128, by: u128) -> bool
    ensures { result ≡ not (nat_eq by 0) && nat_lt depth (flags.now).outer_exclusive_binder }
{
    by != 0 && depth < flags.outer_exclusive_binder
}

// Moves what escapes, and keeps each term from which nothing does, without going into it.
#[derive(Clone, Copy)]
struct Shifter {
    amount: u128,
}

impl<I: Interner> TypeFolder<I> for Shifter {
    ghost use Rattle.std.specs.Prelude.{refl, ◌&&◌, Some, cond, not, nat_eq, nat_lt};
    ghost use Rattle.relation_terms.specs.Flags.{outer_exclusive_binder};
    ghost use Rattle.relation_folds.specs.Shifts.{moves};

    ghost ready = { λ m f. Unit {0} };

    ghost replaces = { λ m f d t. let is_moved = not (nat_eq f.amount 0) && nat_lt d (outer_exclusive_binder t) in
        cond is_moved (moves f.amount d t) (Some t) };

    fn fold_ty(&mut self, cx: &mut I, ty: &Ty<I>, depth: u128) -> Result<Fold<Ty<I>>, OutOfMemory> {
        if !changes(&cx.ty_flags(ty), depth, self.amount) {
            return Ok(Fold::Replace(*ty));
        }
        match cx.ty_kind(ty) {
            TyKind::Bound(index, bound) => match moved(&index, depth, self.amount)? {
                Some(index) => Ok(Fold::Replace(cx.mk_ty(TyKind::Bound(index, bound))?)),
                None => Ok(Fold::Descend),
            },
            _ => Ok(Fold::Descend),
        }
    }

    fn fold_region(
        &mut self,
        cx: &mut I,
        region: &Region<I>,
        depth: u128,
    ) -> Result<Fold<Region<I>>, OutOfMemory> {
        if !changes(&region_flags(cx, region), depth, self.amount) {
            return Ok(Fold::Replace(*region));
        }
        match cx.region_kind(region) {
            RegionKind::ReBound(index, bound) => match moved(&index, depth, self.amount)? {
                Some(index) => Ok(Fold::Replace(cx.mk_region(RegionKind::ReBound(index, bound))?)),
                None => Ok(Fold::Descend),
            },
            _ => Ok(Fold::Descend),
        }
    }

    fn fold_const(
        &mut self,
        cx: &mut I,
        constant: &Const<I>,
        depth: u128,
    ) -> Result<Fold<Const<I>>, OutOfMemory> {
        if !changes(&cx.const_flags(constant), depth, self.amount) {
            return Ok(Fold::Replace(*constant));
        }
        match cx.const_kind(constant) {
            ConstKind::Bound(index, bound) => match moved(&index, depth, self.amount)? {
                Some(index) => Ok(Fold::Replace(cx.mk_const(ConstKind::Bound(index, bound))?)),
                None => Ok(Fold::Descend),
            },
            _ => Ok(Fold::Descend),
        }
    }

    ghost ready_on = { λ m n e f h. tt };

    ghost replaces_on = { λ m n e f h d t. refl };
}
