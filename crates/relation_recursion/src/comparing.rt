//! Comparing the outermost forms of two terms.
ghost use Rattle.std.specs.Prelude.{◌≡◌, ◌≢◌, ◌⊎◌, ◌↔◌, ◌<◌, IsTrue, IsFalse, OnOk, IfErr};
ghost use Rattle.relation_terms.specs.Meaning.{const_tree};
ghost use Rattle.relation_terms.specs.Trees.{known};
ghost use Rattle.relation_terms.specs.declared.terms.const_kind.ConstKind.TheVariants.{Expr};
ghost use Rattle.relation_semantics.specs.Errors.{FormError, ConstFormError, PatternError, AreOfOneForm};
ghost use Rattle.relation_semantics.specs.Errors.{AreOfOneConst, AreOfOneValue, HaveNoError};
ghost use Rattle.relation_folds.specs.declared.error.TypeError.TheVariants.{Sorts, TupleSize, ConstMismatch};
ghost use Rattle.relation_recursion.specs.Forms.{tree_outline, NamesItems};
ghost use Rattle.relation_recursion.specs.Comparing.{AreOfOneItem};
ghost use Rattle.relation_recursion.specs.declared.forms.Form.TheVariants.{Leaf, Tuple, Alias};
ghost use Rattle.relation_semantics.specs.Parts.{IsFormedConst};

mod bodies;
mod items;

use crate::forms::{Form, Outline, has_fixed_parts, is_same_form, is_same_item, outline_of};
use crate::parts::parts_count_in;
pub use bodies::{
    compare_existentials, compare_members, compare_objects, compare_parts, compare_signatures,
};
pub use items::{compare_alias_terms, compare_trait_refs};
use relation_folds::error::{ExpectedFound, TypeError, TypeErrorOf};
use relation_terms::terms::{
    Const, ConstForm, ConstKind, ExprKind, GenericArgs, Interner, Pat, PatternKind, Ty, TyKind,
    UnevaluatedConst, ValTree, ValTreeKind,
};

/// Answers `Ok` where two types are of one outermost form, with as many parts, which are not compared. Parameters are
/// of one form where they have one index; aliases where they are of one item, whatever kind they call it; types that
/// have no parts, all others, where they are one type.
///
/// The interner has to know both types, which are no errors; it is only read.
///
/// Answers `Mutability` for two references or two raw pointers of unlike mutability, `TupleSize` for two tuples of
/// unlike lengths of which none is 0, `ProjectionMismatched` for two aliases of unlike items, and `Sorts` for all other
/// types that differ. An error names the left one first.
/// Upstream these cases stand in `structurally_relate_tys`, which relates the parts too.
pub fn compare_tys<I: Interner>(cx: &I, a: &Ty<I>, b: &Ty<I>) -> Result<(), TypeErrorOf<I>>
    requires a_known { IsTrue (known ((I.meaning cx.now).ty a.now)) }
    requires b_known { IsTrue (known ((I.meaning cx.now).ty b.now)) }
    requires no_error { HaveNoError ((I.meaning cx.now).ty a.now) ((I.meaning cx.now).ty b.now) }
    ensures alike { OnOk result (AreOfOneForm ((I.meaning cx.now).ty a.now) ((I.meaning cx.now).ty b.now)) }
    ensures errors { IfErr result (FormError (I.meaning cx.now) a.now b.now) }
{
    if a == b {
        return Ok(());
    }
    let a_kind = cx.ty_kind(a);
    let b_kind = cx.ty_kind(b);
    let left = outline_of::<I>(&a_kind);
    let right = outline_of::<I>(&b_kind);
    if is_same_form(left.form, Form::Leaf) {
        return compare_leaves(cx, a, b);
    }
    if !is_same_form(left.form, right.form) {
        return Err(unlike::<I>(a, b));
    }
    if !is_same_item(cx, &left.item, &right.item) {
        return Err(unlike_items::<I>(a, b, &left, &right));
    }
    if left.mutability != right.mutability {
        return Err(TypeError::Mutability);
    }
    if has_fixed_parts(left.form) {
        return Ok(());
    }
    let n = parts_count_in(cx, a, &a_kind);
    let m = parts_count_in(cx, b, &b_kind);
    if n != m {
        return Err(unlike_counts::<I>(a, b, left.form, n, m));
    }
    Ok(())
}

// The same of two types that differ, of which the first has no parts.
fn compare_leaves<I: Interner>(cx: &I, a: &Ty<I>, b: &Ty<I>) -> Result<(), TypeErrorOf<I>>
    requires a_known { IsTrue (known ((I.meaning cx.now).ty a.now)) }
    requires b_known { IsTrue (known ((I.meaning cx.now).ty b.now)) }
    requires no_error { HaveNoError ((I.meaning cx.now).ty a.now) ((I.meaning cx.now).ty b.now) }
    requires leaf { (tree_outline ((I.meaning cx.now).ty a.now)).form ≡ Leaf }
    requires differ { (I.meaning cx.now).ty a.now ≢ (I.meaning cx.now).ty b.now }
    ensures alike { OnOk result (AreOfOneForm ((I.meaning cx.now).ty a.now) ((I.meaning cx.now).ty b.now)) }
    ensures errors { IfErr result (FormError (I.meaning cx.now) a.now b.now) }
{
    let left = cx.ty_kind(a);
    let right = cx.ty_kind(b);
    let TyKind::Param(parameter) = left else {
        return Err(unlike::<I>(a, b));
    };
    let TyKind::Param(other) = right else {
        return Err(unlike::<I>(a, b));
    };
    if parameter.index != other.index {
        return Err(unlike::<I>(a, b));
    }
    Ok(())
}

/// Answers `Ok` where two constants are of one outermost form, with as many parts, which are not compared. Parameters
/// are of one form where they have one index, values where their value trees are one or have as many branches, and
/// unevaluated constants where they are of one item; placeholders, and what stands for a variable, where they are one.
/// The types of values are not looked at.
///
/// The interner has to know both constants, which are neither variables nor errors; it is only read.
///
/// Answers `Mismatch` for two expressions of unlike operations or with unlike numbers of arguments, and
/// `ConstMismatch`, which names the left one first, for all other constants that differ. Upstream these cases stand in
/// `structurally_relate_consts`, which relates the parts too.
pub fn compare_consts<I: Interner>(cx: &I, a: &Const<I>, b: &Const<I>) -> Result<(), TypeErrorOf<I>>
    requires a_known { IsTrue (known ((I.meaning cx.now).const_ a.now)) }
    requires b_known { IsTrue (known ((I.meaning cx.now).const_ b.now)) }
    requires a_formed { IsFormedConst ((I.meaning cx.now).const_ a.now) }
    requires b_formed { IsFormedConst ((I.meaning cx.now).const_ b.now) }
    requires no_error { HaveNoError ((I.meaning cx.now).const_ a.now) ((I.meaning cx.now).const_ b.now) }
    ensures alike { OnOk result (AreOfOneConst ((I.meaning cx.now).const_ a.now) ((I.meaning cx.now).const_ b.now)) }
    ensures errors { IfErr result (ConstFormError (I.meaning cx.now) a.now b.now) }
{
    let right = cx.const_kind(b);
    match cx.const_kind(a) {
        ConstKind::Param(parameter) => {
            let ConstKind::Param(other) = right else {
                return Err(unlike_consts::<I>(a, b));
            };
            if parameter.index != other.index {
                return Err(unlike_consts::<I>(a, b));
            }
            Ok(())
        }
        ConstKind::Placeholder(_) | ConstKind::Infer(_) => {
            if a != b {
                return Err(unlike_consts::<I>(a, b));
            }
            Ok(())
        }
        ConstKind::Bound(..) | ConstKind::Error(_) => Err(unlike_consts::<I>(a, b)),
        ConstKind::Value(_, value) => {
            let ConstKind::Value(_, other) = right else {
                return Err(unlike_consts::<I>(a, b));
            };
            if !is_one_value(cx, &value, &other) {
                return Err(unlike_consts::<I>(a, b));
            }
            Ok(())
        }
        ConstKind::Expr(kind, args) => compare_expressions(cx, a, b, kind, &args, &right),
        ConstKind::Unevaluated(unevaluated) => {
            let ConstKind::Unevaluated(other) = right else {
                return Err(unlike_consts::<I>(a, b));
            };
            if !is_one_item(cx, &unevaluated, &other) {
                return Err(unlike_consts::<I>(a, b));
            }
            Ok(())
        }
    }
}

// The same of an expression and another constant, whose form is `right`.
fn compare_expressions<I: Interner>(
    cx: &I,
    a: &Const<I>,
    b: &Const<I>,
    kind: ExprKind,
    args: &GenericArgs<I>,
    right: &ConstForm<I>,
) -> Result<(), TypeErrorOf<I>>
    requires a_known { IsTrue (known ((I.meaning cx.now).const_ a.now)) }
    requires b_known { IsTrue (known ((I.meaning cx.now).const_ b.now)) }
    requires a_form { (I.meaning cx.now).const_ a.now ≡ const_tree (I.meaning cx.now) (Expr kind args.now) }
    requires b_form { (I.meaning cx.now).const_ b.now ≡ const_tree (I.meaning cx.now) right.now }
    requires no_error { HaveNoError ((I.meaning cx.now).const_ a.now) ((I.meaning cx.now).const_ b.now) }
    ensures alike { OnOk result (AreOfOneConst ((I.meaning cx.now).const_ a.now) ((I.meaning cx.now).const_ b.now)) }
    ensures errors { IfErr result (ConstFormError (I.meaning cx.now) a.now b.now) }
{
    let ConstKind::Expr(other_kind, other) = right else {
        return Err(unlike_consts::<I>(a, b));
    };
    if kind != *other_kind {
        return Err(TypeError::Mismatch);
    }
    if cx.args(args).len() != cx.args(other).len() {
        return Err(TypeError::Mismatch);
    }
    Ok(())
}

// Whether two unevaluated constants are of one item, with as many arguments.
fn is_one_item<I: Interner>(
    cx: &I,
    a: &UnevaluatedConst<I::Key, I::Id>,
    b: &UnevaluatedConst<I::Key, I::Id>,
) -> bool
    requires a_known { IsTrue (known ((I.meaning cx.now).args (a.now).args)) }
    requires b_known { IsTrue (known ((I.meaning cx.now).args (b.now).args)) }
    ensures { IsTrue result ↔ AreOfOneItem (I.meaning cx.now) a.now b.now }
{
    if a.def.0 != b.def.0 {
        return false;
    }
    cx.args(&a.args).len() == cx.args(&b.args).len()
}

// Whether two value trees are one, or have as many branches.
fn is_one_value<I: Interner>(cx: &I, a: &ValTree<I>, b: &ValTree<I>) -> bool
    requires a_known { IsTrue (known ((I.meaning cx.now).valtree a.now)) }
    requires b_known { IsTrue (known ((I.meaning cx.now).valtree b.now)) }
    ensures one { let m = I.meaning cx.now in IsTrue result → AreOfOneValue (m.valtree a.now) (m.valtree b.now) }
    ensures unlike { let m = I.meaning cx.now in
        IsFalse result → AreOfOneValue (m.valtree a.now) (m.valtree b.now) → ⊥ }
{
    if a == b {
        return true;
    }
    let ValTreeKind::Branch(branches) = cx.valtree_kind(a) else {
        return false;
    };
    let ValTreeKind::Branch(other) = cx.valtree_kind(b) else {
        return false;
    };
    cx.branches(&branches).len() == cx.branches(&other).len()
}

/// Answers `Ok` where two patterns are of one form, with as many parts, which are not compared, and else `Mismatch`.
///
/// The interner has to know both patterns; it is only read. Upstream these cases stand in the interner's `relate` of
/// patterns, which relates the parts too.
pub fn compare_pats<I: Interner>(cx: &I, a: &Pat<I>, b: &Pat<I>) -> Result<(), TypeErrorOf<I>>
    requires a_known { IsTrue (known ((I.meaning cx.now).pat a.now)) }
    requires b_known { IsTrue (known ((I.meaning cx.now).pat b.now)) }
    ensures alike { OnOk result (AreOfOneForm ((I.meaning cx.now).pat a.now) ((I.meaning cx.now).pat b.now)) }
    ensures errors { IfErr result (PatternError ((I.meaning cx.now).pat a.now) ((I.meaning cx.now).pat b.now)) }
{
    let right = cx.pat_kind(b);
    match cx.pat_kind(a) {
        PatternKind::Range { .. } => {
            let PatternKind::Range { .. } = right else {
                return Err(TypeError::Mismatch);
            };
            Ok(())
        }
        PatternKind::Or(alternatives) => {
            let PatternKind::Or(other) = right else {
                return Err(TypeError::Mismatch);
            };
            if cx.alternatives(&alternatives).len() != cx.alternatives(&other).len() {
                return Err(TypeError::Mismatch);
            }
            Ok(())
        }
        PatternKind::NotNull => {
            let PatternKind::NotNull = right else {
                return Err(TypeError::Mismatch);
            };
            Ok(())
        }
    }
}

// Two types of unlike forms.
fn unlike<I: Interner>(a: &Ty<I>, b: &Ty<I>) -> TypeErrorOf<I>
    ensures { result ≡ Sorts (record { expected = a.now; found = b.now }) }
{
    TypeError::Sorts(ExpectedFound::new(*a, *b))
}

// Two types of one form over unlike items: aliases by their items.
fn unlike_items<I: Interner>(
    a: &Ty<I>,
    b: &Ty<I>,
    left: &Outline<I::Id>,
    right: &Outline<I::Id>,
) -> TypeErrorOf<I>
    ensures aliases { NamesItems left.now right.now result }
    ensures others { (left.now).form ≢ Alias → result ≡ Sorts (record { expected = a.now; found = b.now }) }
{
    if !is_same_form(left.form, Form::Alias) {
        return unlike::<I>(a, b);
    }
    let Some(x) = left.item else {
        return unlike::<I>(a, b);
    };
    let Some(y) = right.item else {
        return unlike::<I>(a, b);
    };
    TypeError::ProjectionMismatched(ExpectedFound::new(x, y))
}

// Two types of one form with unlike numbers of parts: two tuples, of which neither is empty, by their lengths.
fn unlike_counts<I: Interner>(
    a: &Ty<I>,
    b: &Ty<I>,
    form: Form,
    n: usize,
    m: usize,
) -> TypeErrorOf<I>
    ensures sizes { form ≡ Tuple → 0 < n → 0 < m → result ≡ TupleSize (record { expected = n; found = m }) }
    ensures empty { (n ≡ 0) ⊎ (m ≡ 0) → result ≡ Sorts (record { expected = a.now; found = b.now }) }
    ensures others { form ≢ Tuple → result ≡ Sorts (record { expected = a.now; found = b.now }) }
{
    if n == 0 || m == 0 {
        return unlike::<I>(a, b);
    }
    if !is_same_form(form, Form::Tuple) {
        return unlike::<I>(a, b);
    }
    TypeError::TupleSize(ExpectedFound::new(n, m))
}

// Two constants of unlike forms.
fn unlike_consts<I: Interner>(a: &Const<I>, b: &Const<I>) -> TypeErrorOf<I>
    ensures { result ≡ ConstMismatch (record { expected = a.now; found = b.now }) }
{
    TypeError::ConstMismatch(ExpectedFound::new(*a, *b))
}
