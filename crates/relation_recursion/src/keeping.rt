//! What is kept of the answers for the parts of a term: none, while each is its part.
ghost use Rattle.std.specs.Prelude.{◌≡◌, ◌≤◌, IsTrue, IfOk, []};
ghost use Rattle.relation_terms.specs.Trees.{known, count};
ghost use Rattle.relation_terms.specs.Meaning.{arg_tree};
ghost use Rattle.relation_terms.specs.Parts.{part_tree, Fit};
ghost use Rattle.relation_semantics.specs.Parts.{direct_parts, const_parts_of, IsByParts};
ghost use Rattle.relation_semantics.specs.Making.{FitArgs};
ghost use Rattle.part_variances.specs.PartErrors.{IsResultOfTy, IsResultOfConst, IsResultOfPart};
ghost use Rattle.relation_recursion.specs.Keeping.{AreFirstParts, KeepsAnswer, KeepsResult};
ghost use Rattle.relation_recursion.specs.Keeping.{HasPartsTo, HasConstPartsTo, HasTermPartsTo};

use crate::reading::{const_part_of, part_of};
use part_variances::part_errors::{in_const, in_part, in_ty};
use relation_folds::error::RelateResult;
use relation_folds::fold::first_members;
use relation_steps::type_relation::TypeRelation;
use relation_terms::terms::parts::{is_same, parts_of};
use relation_terms::terms::{Const, GenericArg, Interner, OutOfMemory, PartOf, Ty};

// No answers yet.
pub(crate) fn no_answers<I: Interner, R: TypeRelation<I>, T: Copy>(r: &R) -> Vec<T>
    ensures { result.items ≡ [] }
{
    Vec::new(r.cx().alloc())
}

// The first parts of a type, so many.
#[inline(never)]
fn first_parts<I: Interner, R: TypeRelation<I>>(
    r: &R,
    ty: &Ty<I>,
    amount: usize,
) -> Result<Vec<GenericArg<I>>, OutOfMemory>
    requires ty_known { IsTrue (known ((R.state r.now).meaning.ty ty.now)) }
    requires over_args { IsByParts ((R.state r.now).meaning.ty ty.now) → ⊥ }
    requires in_bounds { amount ≤ count (direct_parts ((R.state r.now).meaning.ty ty.now)) }
    ensures { let m = (R.state r.now).meaning in
        IfOk result (λ list. AreFirstParts (arg_tree m) FitArgs amount (direct_parts (m.ty ty.now)) list.items) }
{
    let mut list = Vec::new(r.cx().alloc());
    for i in 0..amount {
        list.push(part_of::<I, R>(r, ty, i))?;
    }
    Ok(list)
}

// The same of a constant.
#[inline(never)]
fn first_const_parts<I: Interner, R: TypeRelation<I>>(
    r: &R,
    constant: &Const<I>,
    amount: usize,
) -> Result<Vec<GenericArg<I>>, OutOfMemory>
    requires constant_known { IsTrue (known ((R.state r.now).meaning.const_ constant.now)) }
    requires in_bounds { amount ≤ count (const_parts_of ((R.state r.now).meaning.const_ constant.now)) }
    ensures { let m = (R.state r.now).meaning in IfOk result (λ list.
        AreFirstParts (arg_tree m) FitArgs amount (const_parts_of (m.const_ constant.now)) list.items) }
{
    let mut list = Vec::new(r.cx().alloc());
    for i in 0..amount {
        list.push(const_part_of::<I, R>(r, constant, i))?;
    }
    Ok(list)
}

// Keeps what two types answer where their parts at place `i`, `x` and `y`, have answered `related`, behind the answers
// before it. While each is the left type's part none is kept: the first that is not is put behind those parts.
#[inline(always)]
pub(crate) fn keep_answer<I: Interner, R: TypeRelation<I>>(
    r: &R,
    ty: &Ty<I>,
    i: usize,
    x: &GenericArg<I>,
    y: &GenericArg<I>,
    related: RelateResult<I, GenericArg<I>>,
    answers: &mut Vec<GenericArg<I>>,
) -> RelateResult<I, ()>
    requires { HasPartsTo (R.state r.now).meaning ty.now i }
    ensures { let m = (R.state r.now).meaning in
        KeepsResult (IsResultOfTy (m.ty ty.now) x.now y.now related) (λ k. KeepsAnswer (arg_tree m) FitArgs i
        (direct_parts (m.ty ty.now)) k answers.old.items answers.new.items) result }
{
    let cx = r.cx();
    let answer = in_ty(cx, ty, x, y, related)?;
    if answers.is_empty() {
        if answer == *x {
            return Ok(());
        }
        *answers = first_parts::<I, R>(r, ty, i)?;
    }
    answers.push(answer)?;
    Ok(())
}

// The same of two constants, whose left part there is `x`.
#[inline(always)]
pub(crate) fn keep_const_answer<I: Interner, R: TypeRelation<I>>(
    r: &R,
    a: &Const<I>,
    b: &Const<I>,
    i: usize,
    x: &GenericArg<I>,
    related: RelateResult<I, GenericArg<I>>,
    answers: &mut Vec<GenericArg<I>>,
) -> RelateResult<I, ()>
    requires { HasConstPartsTo (R.state r.now).meaning a.now i }
    ensures { let m = (R.state r.now).meaning in
        KeepsResult (IsResultOfConst (m.const_ a.now) a.now b.now related) (λ k. KeepsAnswer (arg_tree m) FitArgs i
        (const_parts_of (m.const_ a.now)) k answers.old.items answers.new.items) result }
{
    let cx = r.cx();
    let answer = in_const(cx, a, b, related)?;
    if answers.is_empty() {
        if answer == *x {
            return Ok(());
        }
        *answers = first_const_parts::<I, R>(r, a, i)?;
    }
    answers.push(answer)?;
    Ok(())
}

// The same of two terms that are related by their parts, whose errors name a place, or none.
#[inline(always)]
pub(crate) fn keep_term_answer<I: Interner, R: TypeRelation<I>>(
    r: &R,
    term: &PartOf<I>,
    i: usize,
    place: Option<usize>,
    x: &PartOf<I>,
    related: RelateResult<I, PartOf<I>>,
    answers: &mut Vec<PartOf<I>>,
) -> RelateResult<I, ()>
    requires { HasTermPartsTo (R.state r.now).meaning term.now i x.now related }
    ensures { let m = (R.state r.now).meaning in
        KeepsResult (IsResultOfPart place related) (λ k. KeepsAnswer (part_tree m) Fit i
        (direct_parts (part_tree m term.now)) k answers.old.items answers.new.items) result }
{
    let answer = in_part::<I, PartOf<I>>(place, related)?;
    let cx = r.cx();
    if answers.is_empty() {
        if is_same(cx, x, &answer) {
            return Ok(());
        }
        *answers = first_members(cx, &parts_of(cx, term), i)?;
    }
    answers.push(answer)?;
    Ok(())
}
