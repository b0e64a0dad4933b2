//! Comparing signatures and predicates of trait objects, and parts of terms.
ghost use Rattle.std.specs.Prelude.{◌≡◌, ◌≢◌, ◌<◌, IsTrue, IsFalse, OnOk, IfErr};
ghost use Rattle.relation_terms.specs.Heads.{inputs, object_sort};
ghost use Rattle.relation_terms.specs.Trees.{known, node, count, front};
ghost use Rattle.relation_terms.specs.Meaning.{existential_tree, signature_tree};
ghost use Rattle.relation_folds.specs.declared.error.TypeError.TheVariants.{Mismatch};
ghost use Rattle.relation_terms.specs.Parts.{part_tree, part_sort};
ghost use Rattle.relation_semantics.specs.Errors.{AreOfOneForm, AreAlikeExistentials, SignatureError, ObjectError};
ghost use Rattle.relation_semantics.specs.Parts.{IsComparedPart, direct_parts};
ghost use Rattle.relation_recursion.specs.Comparing.{AreOfOneFormBy, AreAlikeAt, SignaturesDiffer};
ghost use Rattle.relation_recursion.specs.Comparing.{ExistentialsDiffer, PartsDiffer, object_form};

use crate::comparing::compare_pats;
use crate::parts::expect_object;
use relation_folds::error::{ExpectedFound, TypeError, TypeErrorOf};
use relation_terms::predicate::ExistentialPredicate;
use relation_terms::terms::parts::{
    expect_existential, expect_inputs, expect_pat, expect_signature,
};
use relation_terms::terms::{ExistentialPredicates, FnSig, Interner, Part, PartOf, Tys};

/// Answers `Ok` where two signatures say the same besides their types, which are not compared.
///
/// Answers `VariadicMismatch`, `SafetyMismatch` or `AbiMismatch`, by the first of these in which they differ. Upstream
/// these cases stand in the `relate` of signatures.
pub fn compare_signatures<I: Interner>(
    _cx: &I,
    a: &FnSig<I::Key>,
    b: &FnSig<I::Key>,
) -> Result<(), TypeErrorOf<I>>
    ensures alike { OnOk result (AreOfOneFormBy signature_tree (I.meaning _cx.now) a.now b.now) }
    ensures errors { IfErr result (SignaturesDiffer (I.meaning _cx.now) a.now b.now) }
{
    let left = a.header;
    let right = b.header;
    if left.c_variadic != right.c_variadic {
        let pair = ExpectedFound::new(left.c_variadic, right.c_variadic);
        return Err(TypeError::VariadicMismatch(pair));
    }
    if left.safety != right.safety {
        return Err(TypeError::SafetyMismatch(ExpectedFound::new(left.safety, right.safety)));
    }
    if left.abi != right.abi {
        return Err(TypeError::AbiMismatch(ExpectedFound::new(left.abi, right.abi)));
    }
    Ok(())
}

// Answers `Ok` where two signatures have as many inputs, and else `ArgCount`.
fn compare_inputs<I: Interner>(cx: &I, a: &Tys<I>, b: &Tys<I>) -> Result<(), TypeErrorOf<I>>
    requires a_known { IsTrue (known (node inputs (front ((I.meaning cx.now).tys a.now)))) }
    requires b_known { IsTrue (known (node inputs (front ((I.meaning cx.now).tys b.now)))) }
    ensures alike { let m = I.meaning cx.now in OnOk result
        (AreOfOneForm (node inputs (front (m.tys a.now))) (node inputs (front (m.tys b.now)))) }
    ensures errors { let m = I.meaning cx.now in IfErr result
        (SignatureError (node inputs (front (m.tys a.now))) (node inputs (front (m.tys b.now)))) }
{
    if cx.tys(a).len() != cx.tys(b).len() {
        return Err(TypeError::ArgCount);
    }
    Ok(())
}

// Answers `Ok` where two lists are as long, and else `Mismatch`.
fn compare_counts<I: Interner>(n: usize, m: usize) -> Result<(), TypeErrorOf<I>>
    ensures same { OnOk result (n ≡ m) }
    ensures errors { IfErr result (λ e. (n ≢ m) × (e ≡ Mismatch)) }
{
    if n != m {
        return Err(TypeError::Mismatch);
    }
    Ok(())
}

/// Answers `Ok` where two predicates of trait objects are over one item, with as many parts, which are not compared.
///
/// The interner has to know both; it is only read. Answers `Traits` for two traits or two auto traits that differ,
/// `ProjectionMismatched` for projections of different items, and `Mismatch` for predicates of different forms or with
/// unlike numbers of arguments. Upstream these cases stand in the `relate` of each form.
pub fn compare_existentials<I: Interner>(
    cx: &I,
    a: &ExistentialPredicate<I::Key, I::Id>,
    b: &ExistentialPredicate<I::Key, I::Id>,
) -> Result<(), TypeErrorOf<I>>
    requires a_known { IsTrue (known (existential_tree (I.meaning cx.now) a.now)) }
    requires b_known { IsTrue (known (existential_tree (I.meaning cx.now) b.now)) }
    ensures alike { OnOk result (AreOfOneFormBy existential_tree (I.meaning cx.now) a.now b.now) }
    ensures errors { IfErr result (ExistentialsDiffer (I.meaning cx.now) a.now b.now) }
{
    match a {
        ExistentialPredicate::Trait(of) => {
            let ExistentialPredicate::Trait(other) = b else {
                return Err(TypeError::Mismatch);
            };
            if of.def_id.0 != other.def_id.0 {
                return Err(TypeError::Traits(ExpectedFound::new(of.def_id, other.def_id)));
            }
            compare_counts::<I>(cx.args(&of.args).len(), cx.args(&other.args).len())
        }
        ExistentialPredicate::Projection(of) => {
            let ExistentialPredicate::Projection(other) = b else {
                return Err(TypeError::Mismatch);
            };
            if of.def_id.0 != other.def_id.0 {
                let pair = ExpectedFound::new(of.def_id.0, other.def_id.0);
                return Err(TypeError::ProjectionMismatched(pair));
            }
            compare_counts::<I>(cx.args(&of.args).len(), cx.args(&other.args).len())
        }
        ExistentialPredicate::AutoTrait(of) => {
            let ExistentialPredicate::AutoTrait(other) = b else {
                return Err(TypeError::Mismatch);
            };
            if of.0 != other.0 {
                return Err(TypeError::Traits(ExpectedFound::new(*of, *other)));
            }
            Ok(())
        }
    }
}

// Whether two predicates of trait objects are of one form.
fn are_alike_existentials<I: Interner>(
    _cx: &I,
    a: &ExistentialPredicate<I::Key, I::Id>,
    b: &ExistentialPredicate<I::Key, I::Id>,
) -> bool
    ensures alike { let m = I.meaning _cx.now in
        IsTrue result → AreAlikeExistentials (existential_tree m a.now) (existential_tree m b.now) }
    ensures unlike { let m = I.meaning _cx.now in
        IsFalse result → AreAlikeExistentials (existential_tree m a.now) (existential_tree m b.now) → ⊥ }
{
    match a {
        ExistentialPredicate::Trait(_) => {
            let ExistentialPredicate::Trait(_) = b else {
                return false;
            };
            true
        }
        ExistentialPredicate::Projection(_) => {
            let ExistentialPredicate::Projection(_) = b else {
                return false;
            };
            true
        }
        ExistentialPredicate::AutoTrait(_) => {
            let ExistentialPredicate::AutoTrait(_) = b else {
                return false;
            };
            true
        }
    }
}

/// Answers `Ok` where two lists of predicates of trait objects are as long, and else `ExistentialMismatch` of both.
///
/// The interner has to know both; it is only read. Upstream the interner's `relate` of such lists has this case.
pub fn compare_objects<I: Interner>(
    cx: &I,
    a: &ExistentialPredicates<I>,
    b: &ExistentialPredicates<I>,
) -> Result<(), TypeErrorOf<I>>
    requires a_known { IsTrue (known ((I.meaning cx.now).existential_predicates a.now)) }
    requires b_known { IsTrue (known ((I.meaning cx.now).existential_predicates b.now)) }
    ensures alike { OnOk result (AreOfOneFormBy object_form (I.meaning cx.now) a.now b.now) }
    ensures errors { IfErr result (ObjectError (I.meaning cx.now) a.now b.now) }
{
    if cx.existential_predicates(a).len() != cx.existential_predicates(b).len() {
        return Err(TypeError::ExistentialMismatch(ExpectedFound::new(*a, *b)));
    }
    Ok(())
}

/// Answers `ExistentialMismatch` where two lists of predicates of trait objects have such of different forms at a
/// place, and else `Ok`; so too of terms of other forms.
///
/// The interner has to know both, and the place has to be in both; it is only read. Upstream the interner's `relate` of
/// such lists compares forms as each pair comes.
pub fn compare_members<I: Interner>(
    cx: &I,
    a: &PartOf<I>,
    b: &PartOf<I>,
    i: usize,
) -> Result<(), TypeErrorOf<I>>
    requires a_known { IsTrue (known (part_tree (I.meaning cx.now) a.now)) }
    requires b_known { IsTrue (known (part_tree (I.meaning cx.now) b.now)) }
    requires in_a { i < count (direct_parts (part_tree (I.meaning cx.now) a.now)) }
    requires in_b { i < count (direct_parts (part_tree (I.meaning cx.now) b.now)) }
    requires one_sort { part_sort b.now ≡ part_sort a.now }
    ensures alike { OnOk result (part_sort a.now ≡ object_sort → AreAlikeAt (I.meaning cx.now) i a.now b.now) }
    ensures errors { IfErr result (PartsDiffer (I.meaning cx.now) a.now b.now) }
{
    let Part::Object(left) = a else {
        return Ok(());
    };
    let Part::Object(right) = b else {
        return Ok(());
    };
    let x = cx.existential_predicates(left)[i];
    let y = cx.existential_predicates(right)[i];
    if !are_alike_existentials(cx, &x.value, &y.value) {
        return Err(TypeError::ExistentialMismatch(ExpectedFound::new(*left, *right)));
    }
    Ok(())
}

/// Answers `Ok` where two patterns, signatures, lists of inputs, predicates of trait objects or lists of these are of
/// one form, with as many parts, which are not compared.
///
/// The interner has to know both, which are of one sort; it is only read. Errors are those of the calls above, and
/// `ArgCount` for unlike numbers of inputs.
pub fn compare_parts<I: Interner>(
    cx: &I,
    a: &PartOf<I>,
    b: &PartOf<I>,
) -> Result<(), TypeErrorOf<I>>
    requires a_known { IsTrue (known (part_tree (I.meaning cx.now) a.now)) }
    requires b_known { IsTrue (known (part_tree (I.meaning cx.now) b.now)) }
    requires kind { IsComparedPart a.now }
    requires one_sort { part_sort b.now ≡ part_sort a.now }
    ensures alike { OnOk result (AreOfOneFormBy part_tree (I.meaning cx.now) a.now b.now) }
    ensures errors { IfErr result (PartsDiffer (I.meaning cx.now) a.now b.now) }
{
    match a {
        Part::Pat(a) => compare_pats(cx, a, &expect_pat(b)),
        Part::Signature(a) => compare_signatures(cx, a, &expect_signature(b)),
        Part::Inputs(a) => compare_inputs(cx, a, &expect_inputs(b)),
        Part::Existential(a) => compare_existentials(cx, a, &expect_existential(b)),
        Part::Object(a) => compare_objects(cx, a, &expect_object(b)),
        _ => unreachable!(),
    }
}
