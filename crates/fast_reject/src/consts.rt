//! The depth test over two constants, and over the value trees that they are.
ghost use Rattle.std.specs.Prelude.{◌↔◌, IsTrue, IsFalse};
ghost use Rattle.relation_terms.specs.Trees.{known, list_tree};
ghost use Rattle.fast_reject.specs.Pairs.{ClashAs};

use crate::forms::{Sides, is_flexible_const};
use relation_terms::terms::{Const, ConstKind, Interner, ValTree, ValTreeKind};

/// Whether two constants may unify. They take nothing from the depth.
#[cycle(clashes)]
pub fn consts_may_unify<I: Interner>(
    cx: &I,
    sides: Sides,
    lhs: &Const<I>,
    rhs: &Const<I>,
    depth: usize,
) -> bool
    requires lhs_known { IsTrue (known ((I.meaning cx.now).const_ lhs.now)) }
    requires rhs_known { IsTrue (known ((I.meaning cx.now).const_ rhs.now)) }
    ensures { IsFalse result ↔ ClashAs sides depth (I.meaning cx.now).const_ lhs.now rhs.now }
{
    if lhs == rhs {
        return true;
    }
    let left = cx.const_kind(lhs);
    let right = cx.const_kind(rhs);
    if is_flexible_const::<I>(&right, sides.right) {
        return true;
    }
    if is_flexible_const::<I>(&left, sides.left) {
        return true;
    }
    let ConstKind::Value(_, left_value) = &left else {
        return false;
    };
    let ConstKind::Value(_, right_value) = &right else {
        return false;
    };
    valtrees_may_unify(cx, sides, left_value, right_value, depth)
}

// Whether two value trees may unify: the same bits, or as many branches that may, pair by pair.
#[cycle(clashes)]
fn valtrees_may_unify<I: Interner>(
    cx: &I,
    sides: Sides,
    lhs: &ValTree<I>,
    rhs: &ValTree<I>,
    depth: usize,
) -> bool
    requires lhs_known { IsTrue (known ((I.meaning cx.now).valtree lhs.now)) }
    requires rhs_known { IsTrue (known ((I.meaning cx.now).valtree rhs.now)) }
    ensures { IsFalse result ↔ ClashAs sides depth (I.meaning cx.now).valtree lhs.now rhs.now }
{
    if lhs == rhs {
        return true;
    }
    let left = cx.valtree_kind(lhs);
    let right = cx.valtree_kind(rhs);
    let ValTreeKind::Branch(left_branches) = &left else {
        return false;
    };
    let ValTreeKind::Branch(right_branches) = &right else {
        return false;
    };
    let left_parts = cx.branches(left_branches);
    let right_parts = cx.branches(right_branches);
    if left_parts.len() != right_parts.len() {
        return false;
    }
    branches_may_unify(cx, sides, left_parts, right_parts, depth)
}

// Whether the branches of two value trees may unify, pair by pair, as far as the shorter list goes.
#[cycle(clashes)]
fn branches_may_unify<I: Interner>(
    cx: &I,
    sides: Sides,
    left: &[Const<I>],
    right: &[Const<I>],
    depth: usize,
) -> bool
    requires left_known { IsTrue (known (list_tree (I.meaning cx.now).const_ left.now)) }
    requires right_known { IsTrue (known (list_tree (I.meaning cx.now).const_ right.now)) }
    ensures { IsFalse result ↔ ClashAs sides depth (list_tree (I.meaning cx.now).const_) left.now right.now }
{
    for i in 0..left.len().min(right.len()) {
        if !consts_may_unify(cx, sides, &left[i], &right[i], depth) {
            return false;
        }
    }
    true
}
