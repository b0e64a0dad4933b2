//! The depth test over two types, and over lists of types and of arguments, pair by pair.
ghost use Rattle.std.specs.Prelude.{◌↔◌, ◌≢◌, IsTrue, IsFalse};
ghost use Rattle.relation_terms.specs.Trees.{known, list_tree};
ghost use Rattle.relation_terms.specs.Meaning.{arg_tree};
ghost use Rattle.fast_reject.specs.Pairs.{ClashAs, ClashIn, KnownPair};

use crate::consts::consts_may_unify;
use crate::forms::{Sides, depth_within, may_stand_for, stands_for};
use crate::pairs::{Pair, paired};
use relation_terms::terms::{GenericArg, GenericArgKind, Interner, Ty};

/// Whether two types may unify: true at a depth of 0, if nothing tells otherwise. Equal types do without a call.
#[cycle(clashes)]
#[inline(always)]
pub fn types_may_unify<I: Interner>(
    cx: &I,
    sides: Sides,
    lhs: Ty<I>,
    rhs: Ty<I>,
    depth: usize,
) -> bool
    requires lhs_known { IsTrue (known ((I.meaning cx.now).ty lhs)) }
    requires rhs_known { IsTrue (known ((I.meaning cx.now).ty rhs)) }
    ensures { IsFalse result ↔ ClashAs sides depth (I.meaning cx.now).ty lhs rhs }
{
    if lhs == rhs {
        return true;
    }
    unlike_may_unify(cx, sides, lhs, rhs, depth)
}

// The same of types that differ. They are given by value, so that what stands in a reference, a pointer or a slice is
// compared in the same round, and takes no call. A left type that may stand for others is like none that may not, so
// only one of an unlike form is asked.
#[cycle(clashes)]
#[inline(never)]
fn unlike_may_unify<I: Interner>(cx: &I, sides: Sides, lhs: Ty<I>, rhs: Ty<I>, depth: usize) -> bool
    requires lhs_known { IsTrue (known ((I.meaning cx.now).ty lhs)) }
    requires rhs_known { IsTrue (known ((I.meaning cx.now).ty rhs)) }
    requires differ { (I.meaning cx.now).ty lhs ≢ (I.meaning cx.now).ty rhs }
    ensures { IsFalse result ↔ ClashAs sides depth (I.meaning cx.now).ty lhs rhs }
{
    let left = cx.ty_kind(&lhs);
    let right = cx.ty_kind(&rhs);
    if let Some(may) = may_stand_for(cx, &right, sides.right, lhs) {
        return may;
    }
    if depth == 0 {
        return true;
    }
    let pair = paired(cx, &left, &right);
    if let Pair::Apart = pair {
        return stands_for(cx, &left, sides.left, rhs);
    }
    let inner = depth_within::<I>(&left, depth - 1);
    pair_may_unify(cx, sides, pair, inner)
}

// Whether what is compared inside of two types may unify.
#[cycle(clashes)]
#[inline(always)]
fn pair_may_unify<I: Interner>(cx: &I, sides: Sides, pair: Pair<I::Key>, depth: usize) -> bool
    requires { KnownPair (I.meaning cx.now) pair }
    ensures { IsFalse result ↔ ClashIn (I.meaning cx.now) sides.left sides.right depth pair }
{
    match pair {
        Pair::Apart => false,
        Pair::Nothing => true,
        Pair::Types(lhs, rhs) => types_may_unify(cx, sides, lhs, rhs, depth),
        Pair::Arrays(lhs, rhs, len, length) => {
            if !types_may_unify(cx, sides, lhs, rhs, depth) {
                return false;
            }
            consts_may_unify(cx, sides, &len, &length, depth)
        }
        Pair::Lists(tys, others) => tys_may_unify(cx, sides, cx.tys(&tys), cx.tys(&others), depth),
        Pair::Args(args, others) => {
            let list = cx.args(&args);
            let other_list = cx.args(&others);
            args_may_unify(cx, sides, list, other_list, depth)
        }
    }
}

// Whether the types of two lists may unify, pair by pair, as far as the shorter one goes.
#[cycle(clashes)]
fn tys_may_unify<I: Interner>(
    cx: &I,
    sides: Sides,
    left: &[Ty<I>],
    right: &[Ty<I>],
    depth: usize,
) -> bool
    requires left_known { IsTrue (known (list_tree (I.meaning cx.now).ty left.now)) }
    requires right_known { IsTrue (known (list_tree (I.meaning cx.now).ty right.now)) }
    ensures { IsFalse result ↔ ClashAs sides depth (list_tree (I.meaning cx.now).ty) left.now right.now }
{
    for i in 0..left.len().min(right.len()) {
        if !types_may_unify(cx, sides, left[i], right[i], depth) {
            return false;
        }
    }
    true
}

// Whether two arguments may unify: types and constants. Regions may, and so may arguments of unlike sorts.
#[cycle(clashes)]
fn arg_may_unify<I: Interner>(
    cx: &I,
    sides: Sides,
    left: &GenericArg<I>,
    right: &GenericArg<I>,
    depth: usize,
) -> bool
    requires left_known { IsTrue (known (arg_tree (I.meaning cx.now) left.now)) }
    requires right_known { IsTrue (known (arg_tree (I.meaning cx.now) right.now)) }
    ensures { IsFalse result ↔ ClashAs sides depth (arg_tree (I.meaning cx.now)) left.now right.now }
{
    match left {
        GenericArgKind::Ty(lhs) => {
            let GenericArgKind::Ty(rhs) = right else {
                return true;
            };
            types_may_unify(cx, sides, *lhs, *rhs, depth)
        }
        GenericArgKind::Const(lhs) => {
            let GenericArgKind::Const(rhs) = right else {
                return true;
            };
            consts_may_unify(cx, sides, lhs, rhs, depth)
        }
        GenericArgKind::Lifetime(_) => true,
    }
}

/// Whether the arguments of two lists may unify, pair by pair, as far as the shorter one goes.
#[cycle(clashes)]
pub fn args_may_unify<I: Interner>(
    cx: &I,
    sides: Sides,
    left: &[GenericArg<I>],
    right: &[GenericArg<I>],
    depth: usize,
) -> bool
    requires left_known { IsTrue (known (list_tree (arg_tree (I.meaning cx.now)) left.now)) }
    requires right_known { IsTrue (known (list_tree (arg_tree (I.meaning cx.now)) right.now)) }
    ensures { IsFalse result ↔ ClashAs sides depth (list_tree (arg_tree (I.meaning cx.now))) left.now right.now }
{
    for i in 0..left.len().min(right.len()) {
        if !arg_may_unify(cx, sides, &left[i], &right[i], depth) {
            return false;
        }
    }
    true
}
