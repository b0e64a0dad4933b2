//! An error of two parts as the error of the two terms that they are parts of.
ghost use Rattle.std.specs.Prelude.{◌≡◌, IsTrue};
ghost use Rattle.relation_terms.specs.Trees.{known};
ghost use Rattle.relation_terms.specs.Parts.{part_tree};
ghost use Rattle.part_variances.specs.PartErrors.{IsFaultOfTy, IsFaultOfConst, IsResultOfTy, IsResultOfConst};
ghost use Rattle.part_variances.specs.PartErrors.{IsResultOfPart, IsPlacedOrNot, named_place as place_named};

use relation_folds::error::{
    ExpectedFound, RelateFault, RelateFaultOf, RelateResult, TypeError, TypeErrorOf,
};
use relation_terms::terms::parts::member_count;
use relation_terms::terms::{
    Const, ConstKind, GenericArg, GenericArgKind, Interner, Part, PartOf, Parts, Ty, TyKind,
};

// The fault of two types where one of their parts has failed: lengths of arrays that differ are sizes that differ.
fn of_ty<I: Interner>(
    cx: &I,
    ty: &Ty<I>,
    x: &GenericArg<I>,
    y: &GenericArg<I>,
    fault: RelateFaultOf<I>,
) -> RelateFaultOf<I>
    requires { IsTrue (known ((I.meaning cx.now).ty ty.now)) }
    ensures { IsFaultOfTy ((I.meaning cx.now).ty ty.now) x.now y.now fault result }
{
    let RelateFault::Unrelated(error) = &fault else {
        return fault;
    };
    let TypeError::ConstMismatch(_) = error else {
        return fault;
    };
    let TyKind::Array(..) = cx.ty_kind(ty) else {
        return fault;
    };
    let GenericArgKind::Const(x) = x else {
        return fault;
    };
    let GenericArgKind::Const(y) = y else {
        return fault;
    };
    RelateFault::Unrelated(TypeError::ArraySize(ExpectedFound::new(*x, *y)))
}

// The fault of two constants where one of their parts has failed: where branches differ the whole values differ.
fn of_const<I: Interner>(
    cx: &I,
    a: &Const<I>,
    b: &Const<I>,
    fault: RelateFaultOf<I>,
) -> RelateFaultOf<I>
    requires { IsTrue (known ((I.meaning cx.now).const_ a.now)) }
    ensures { IsFaultOfConst ((I.meaning cx.now).const_ a.now) a.now b.now fault result }
{
    let RelateFault::Unrelated(_) = &fault else {
        return fault;
    };
    let ConstKind::Value(..) = cx.const_kind(a) else {
        return fault;
    };
    RelateFault::Unrelated(TypeError::ConstMismatch(ExpectedFound::new(*a, *b)))
}

/// What relating two types answers where relating two of their parts, `x` and `y`, has answered `related`. `ty` is the
/// left type.
///
/// The interner has to know the left type; it is only read.
///
/// That is `related` itself, but `ArraySize` of `x` and `y` in place of `ConstMismatch` where the left type is an array
/// and both parts are constants. Upstream this stands in `structurally_relate_tys`.
pub fn in_ty<I: Interner, T>(
    cx: &I,
    ty: &Ty<I>,
    x: &GenericArg<I>,
    y: &GenericArg<I>,
    related: RelateResult<I, T>,
) -> RelateResult<I, T>
    requires { IsTrue (known ((I.meaning cx.now).ty ty.now)) }
    ensures { IsResultOfTy ((I.meaning cx.now).ty ty.now) x.now y.now related result }
{
    match related {
        Ok(answer) => Ok(answer),
        Err(fault) => Err(of_ty(cx, ty, x, y, fault)),
    }
}

/// What relating the constants `a` and `b` answers where relating two of their parts has answered `related`.
///
/// The interner has to know the left constant; it is only read.
///
/// That is `related` itself, but `ConstMismatch` of `a` and `b` in place of any type error where the left one is a
/// value. Upstream this stands in `structurally_relate_consts`.
pub fn in_const<I: Interner, T>(
    cx: &I,
    a: &Const<I>,
    b: &Const<I>,
    related: RelateResult<I, T>,
) -> RelateResult<I, T>
    requires { IsTrue (known ((I.meaning cx.now).const_ a.now)) }
    ensures { IsResultOfConst ((I.meaning cx.now).const_ a.now) a.now b.now related result }
{
    match related {
        Ok(answer) => Ok(answer),
        Err(fault) => Err(of_const(cx, a, b, fault)),
    }
}

/// The place that an error of the parts of two terms at place `i` names: of a function's inputs their own, of its
/// output the number of inputs, and none of other parts. `term` is the left term.
///
/// The interner has to know the left term; it is only read. Upstream this stands in the `relate` of signatures.
pub fn named_place<I: Interner>(cx: &I, term: &PartOf<I>, i: usize) -> Option<usize>
    requires { IsTrue (known (part_tree (I.meaning cx.now) term.now)) }
    ensures { result ≡ place_named (part_tree (I.meaning cx.now) term.now) i }
{
    match term {
        Part::Inputs(_) => Some(i),
        Part::Signature(sig) => {
            if i == 0 {
                return None;
            }
            Some(member_count(cx, &Parts::Inputs(sig.inputs_and_output)))
        }
        _ => None,
    }
}

// The same error with that place, where it can name one.
fn at_place<I: Interner>(error: TypeErrorOf<I>, place: usize) -> TypeErrorOf<I>
    ensures { IsPlacedOrNot place error result }
{
    match error {
        TypeError::Sorts(pair) => TypeError::ArgumentSorts(pair, place),
        TypeError::ArgumentSorts(pair, _) => TypeError::ArgumentSorts(pair, place),
        TypeError::Mutability => TypeError::ArgumentMutability(place),
        TypeError::ArgumentMutability(_) => TypeError::ArgumentMutability(place),
        error => error,
    }
}

/// What relating two terms answers where relating two of their parts has answered `related`. `place` is what an error
/// of these names, as `named_place` says.
///
/// That is `related` itself, but an error that can name a place names this one. Upstream this stands in the `relate` of
/// signatures.
pub fn in_part<I: Interner, T>(
    place: Option<usize>,
    related: RelateResult<I, T>,
) -> RelateResult<I, T>
    ensures { IsResultOfPart place related result }
{
    let Some(place) = place else {
        return related;
    };
    match related {
        Ok(answer) => Ok(answer),
        Err(fault) => match fault {
            RelateFault::Unrelated(error) => {
                Err(RelateFault::Unrelated(at_place::<I>(error, place)))
            }
            other => Err(other),
        },
    }
}
