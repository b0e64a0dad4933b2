//! The key of a type over a binder, by the keys of its parts.
ghost use Rattle.std.specs.Prelude.{◌≡◌, Some, IsTrue, IfSome, slice_range};
ghost use Rattle.relation_terms.specs.Trees.{known, list_tree};
ghost use Rattle.relation_terms.specs.Meaning.{Extends, arg_tree, bound_kind_of, bound_kinds};
ghost use Rattle.text_terms.specs.Terms.{variable_of, fn_ptr_tree, unsafe_binder_tree};
ghost use Rattle.text_terms.specs.Built.{AreKnown, BindWhereBuilt, MakesBinder, MakesTree};

use crate::building::lists::{key_at, keys_at, ty_at, tys_of};
use crate::building::making::make_ty;
use relation_terms::terms::{
    Binder, BoundVariable, BoundVariableKind, ConstKind, FnHeader, FnSigTys, GenericArg,
    GenericArgKind, Interner, RegionKind, Ty, TyKind,
};
use text_reading::naming::{Parts, Term};

// What a binder binds that this key stands for under it.
fn variable_of<I: Interner>(cx: &I, key: &GenericArg<I>) -> Option<BoundVariable<I>>
    requires { IsTrue (known (arg_tree (I.meaning cx.now) key.now)) }
    ensures { let m = I.meaning cx.now in
        IfSome result (λ v. variable_of (arg_tree m key.now) ≡ Some (bound_kind_of m v)) }
{
    match key {
        GenericArgKind::Ty(ty) => match cx.ty_kind(ty) {
            TyKind::Bound(_, bound) => Some(BoundVariableKind::Ty(bound.name)),
            _ => None,
        },
        GenericArgKind::Lifetime(region) => match cx.region_kind(region) {
            RegionKind::ReBound(_, bound) => Some(BoundVariableKind::Region(bound.name)),
            _ => None,
        },
        GenericArgKind::Const(constant) => match cx.const_kind(constant) {
            ConstKind::Bound(_, bound) => Some(BoundVariableKind::Const(bound.name)),
            _ => None,
        },
    }
}

// The numbers of a term's parts.
fn places_at(numbers: &[usize], parts: Parts) -> Option<&[usize]>
    ensures { IfSome result (λ places. places.now ≡ slice_range numbers.now parts.first parts.behind) }
{
    numbers.get(parts.first..parts.behind)
}

/// What a binder binds, by the numbers of the terms that stand for it. The interner has to know each key that is there.
/// There is none where a term has no key or stands for nothing that is bound, or where memory is refused.
pub fn variables_at<I: Interner>(
    cx: &I,
    numbers: &[usize],
    built: &[Option<GenericArg<I>>],
    parts: Parts,
) -> Option<Vec<BoundVariable<I>>>
    requires { AreKnown (I.meaning cx.now) built.now }
    ensures { IfSome result (λ vs. BindWhereBuilt (I.meaning cx.now) numbers.now built.now parts vs.items) }
{
    let places = places_at(numbers, parts)?;
    let mut variables = Vec::new(cx.alloc());
    for number in places {
        let key = key_at(built, *number)?;
        let variable = variable_of(cx, &key)?;
        let Ok(_) = variables.push(variable) else {
            return None;
        };
    }
    Some(variables)
}

// A function pointer over those types, the inputs and then the output.
fn make_fn_ptr<I: Interner>(
    cx: &mut I,
    header: FnHeader,
    variables: &[BoundVariable<I>],
    types: &[GenericArg<I>],
) -> Option<GenericArg<I>>
    requires { IsTrue (known (list_tree (arg_tree (I.meaning cx.old)) types.now)) }
    ensures grown { Extends (I.meaning cx.old) (I.meaning cx.new) }
    ensures made { let m = I.meaning cx.old in
        let tree = fn_ptr_tree header (Some (bound_kinds m variables.now)) (list_tree (arg_tree m) types.now) in
        MakesTree (I.meaning cx.new) tree result }
{
    if types.is_empty() {
        return None;
    }
    let tys = tys_of(cx.alloc(), types)?;
    let Ok(inputs_and_output) = cx.mk_type_list(&tys) else {
        return None;
    };
    let Ok(bound_vars) = cx.mk_bound_vars(variables) else {
        return None;
    };
    let value = FnSigTys { inputs_and_output };
    make_ty(cx, TyKind::FnPtr(Binder { value, bound_vars }, header))
}

// A type under a binder.
fn make_unsafe_binder<I: Interner>(
    cx: &mut I,
    variables: &[BoundVariable<I>],
    ty: Ty<I>,
) -> Option<GenericArg<I>>
    requires { IsTrue (known ((I.meaning cx.old).ty ty)) }
    ensures grown { Extends (I.meaning cx.old) (I.meaning cx.new) }
    ensures made { let m = I.meaning cx.old in
        let tree = unsafe_binder_tree (Some (bound_kinds m variables.now)) (m.ty ty) in
        MakesTree (I.meaning cx.new) tree result }
{
    let Ok(bound_vars) = cx.mk_bound_vars(variables) else {
        return None;
    };
    let binder = Binder {
        value: ty,
        bound_vars,
    };
    make_ty(cx, TyKind::UnsafeBinder(binder))
}

// A type over a binder. A term that is none has no key.
pub(super) fn make_binder<I: Interner>(
    cx: &mut I,
    numbers: &[usize],
    built: &[Option<GenericArg<I>>],
    term: Term,
) -> Option<GenericArg<I>>
    requires { AreKnown (I.meaning cx.old) built.now }
    ensures grown { Extends (I.meaning cx.old) (I.meaning cx.new) }
    ensures made { MakesBinder (I.meaning cx.old) (I.meaning cx.new) numbers.now built.now term result }
{
    match term {
        Term::FnPtr(header, variables, types) => {
            let variables = variables_at(&*cx, numbers, built, variables)?;
            let types = keys_at(cx.alloc(), numbers, built, types)?;
            make_fn_ptr(cx, header, &variables, &types)
        }
        Term::UnsafeBinder(variables, ty) => {
            let variables = variables_at(&*cx, numbers, built, variables)?;
            let ty = ty_at(built, ty)?;
            make_unsafe_binder(cx, &variables, ty)
        }
        _ => None,
    }
}
