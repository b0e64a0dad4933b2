//! The key of a term, by the keys of its parts.
ghost use Rattle.std.specs.Prelude.{◌≡◌, ℕ, List, Some, IsTrue, IfSome, map, slice_get};
ghost use Rattle.relation_terms.specs.Heads.{tuple, expression, value_branch};
ghost use Rattle.relation_terms.specs.Trees.{Tree, known, node, list_tree};
ghost use Rattle.relation_terms.specs.Meaning.{Extends, arg_tree, kind_tree, region_tree, const_tree};
ghost use Rattle.relation_terms.specs.Meaning.{valtree_tree, value_tree};
ghost use Rattle.text_terms.specs.Terms.{text_term_tree};
ghost use Rattle.text_terms.specs.Built.{AreKnown, AreInnerKnown, Makes, MakesKey, MakesPart, MakesTree};
ghost use Rattle.text_terms.specs.Built.{IsFormOf, IsRegionOf, IsConstOf};

use crate::building::binders::make_binder;
use crate::building::inner::InnerOf;
use crate::building::items::make_item;
use crate::building::lists::{const_at, consts_of, keys_at, region_at, ty_at, tys_of};
use crate::building::objects::{make_object, make_predicate};
use crate::building::patterns::{make_pattern, make_pattern_type};
use relation_terms::terms::{
    BoundConst, BoundRegion, BoundTy, BoundVar, ConstForm, ConstKind, ConstVid, DebruijnIndex,
    EarlyParamRegion, ErrorGuaranteed, ExprKind, FloatVid, GenericArg, GenericArgKind, InferConst,
    InferTy, IntVid, Interner, ParamConst, ParamTy, Placeholder, RegionForm, RegionKind, RegionVid,
    Ty, TyForm, TyKind, TyVid, UniverseIndex, ValTreeForm, ValTreeKind,
};
use text_reading::naming::Term;

// The type of a form.
pub(super) fn make_ty<I: Interner>(cx: &mut I, form: TyForm<I>) -> Option<GenericArg<I>>
    requires { IsTrue (known (kind_tree (I.meaning cx.old) form)) }
    ensures grown { Extends (I.meaning cx.old) (I.meaning cx.new) }
    ensures made { MakesTree (I.meaning cx.new) (kind_tree (I.meaning cx.old) form) result }
{
    match cx.mk_ty(form) {
        Ok(ty) => Some(GenericArgKind::Ty(ty)),
        Err(_) => None,
    }
}

// The region of a form.
fn make_region<I: Interner>(cx: &mut I, form: RegionForm<I>) -> Option<GenericArg<I>>
    ensures grown { Extends (I.meaning cx.old) (I.meaning cx.new) }
    ensures made { MakesTree (I.meaning cx.new) (region_tree (I.meaning cx.old) form) result }
{
    match cx.mk_region(form) {
        Ok(region) => Some(GenericArgKind::Lifetime(region)),
        Err(_) => None,
    }
}

// The constant of a form.
pub(super) fn make_const<I: Interner>(cx: &mut I, form: ConstForm<I>) -> Option<GenericArg<I>>
    requires { IsTrue (known (const_tree (I.meaning cx.old) form)) }
    ensures grown { Extends (I.meaning cx.old) (I.meaning cx.new) }
    ensures made { MakesTree (I.meaning cx.new) (const_tree (I.meaning cx.old) form) result }
{
    match cx.mk_const(form) {
        Ok(constant) => Some(GenericArgKind::Const(constant)),
        Err(_) => None,
    }
}

/// The name or the id of that number, if there is one.
pub fn name_at<N: Copy>(names: &[N], number: usize) -> Option<N>
    ensures { result ≡ slice_get names.now number }
{
    names.get(number).copied()
}

// The form of a type without parts. A term that is none has no such form.
fn ty_leaf<I: Interner>(names: &[I::Name], term: Term) -> Option<TyForm<I>>
    ensures { IfSome result (IsFormOf I.Key I.Id names.now term) }
{
    match term {
        Term::Bool => Some(TyKind::Bool),
        Term::Char => Some(TyKind::Char),
        Term::Str => Some(TyKind::Str),
        Term::Never => Some(TyKind::Never),
        Term::Int(width) => Some(TyKind::Int(width)),
        Term::Uint(width) => Some(TyKind::Uint(width)),
        Term::Float(width) => Some(TyKind::Float(width)),
        Term::TyVar(number) => Some(TyKind::Infer(InferTy::TyVar(TyVid(number)))),
        Term::IntVar(number) => Some(TyKind::Infer(InferTy::IntVar(IntVid(number)))),
        Term::FloatVar(number) => Some(TyKind::Infer(InferTy::FloatVar(FloatVid(number)))),
        Term::TyError => Some(TyKind::Error(ErrorGuaranteed)),
        Term::TyBound(depth, place, name) => {
            let name = name_at(names, name)?;
            let var = BoundVar(place);
            Some(TyKind::Bound(DebruijnIndex(depth), BoundTy { var, name }))
        }
        Term::TyParam(index, name) => {
            let name = name_at(names, name)?;
            Some(TyKind::Param(ParamTy { index, name }))
        }
        Term::TyPlaceholder(universe, place, name) => {
            let name = name_at(names, name)?;
            let var = BoundVar(place);
            let universe = UniverseIndex(universe);
            let bound = BoundTy { var, name };
            Some(TyKind::Placeholder(Placeholder { universe, bound }))
        }
        _ => None,
    }
}

// The form of a region. A term that is none has no such form.
fn region_form<I: Interner>(names: &[I::Name], term: Term) -> Option<RegionForm<I>>
    ensures { IfSome result (IsRegionOf I.Key I.Id names.now term) }
{
    match term {
        Term::Static => Some(RegionKind::ReStatic),
        Term::RegionVar(number) => Some(RegionKind::ReVar(RegionVid(number))),
        Term::RegionBound(depth, place, name) => {
            let name = name_at(names, name)?;
            let var = BoundVar(place);
            let bound = BoundRegion { var, name };
            Some(RegionKind::ReBound(DebruijnIndex(depth), bound))
        }
        Term::RegionParam(index, name) => {
            let name = name_at(names, name)?;
            Some(RegionKind::ReEarlyParam(EarlyParamRegion { index, name }))
        }
        Term::RegionPlaceholder(universe, place, name) => {
            let name = name_at(names, name)?;
            let var = BoundVar(place);
            let universe = UniverseIndex(universe);
            let bound = BoundRegion { var, name };
            Some(RegionKind::RePlaceholder(Placeholder { universe, bound }))
        }
        _ => None,
    }
}

// The form of a constant without parts. A term that is none has no such form.
fn const_leaf<I: Interner>(names: &[I::Name], term: Term) -> Option<ConstForm<I>>
    ensures { IfSome result (IsConstOf I.Key I.Id names.now term) }
{
    match term {
        Term::ConstBound(depth, place, name) => {
            let name = name_at(names, name)?;
            let var = BoundVar(place);
            let bound = BoundConst { var, name };
            Some(ConstKind::Bound(DebruijnIndex(depth), bound))
        }
        Term::ConstParam(index, name) => {
            let name = name_at(names, name)?;
            Some(ConstKind::Param(ParamConst { index, name }))
        }
        Term::ConstVar(number) => Some(ConstKind::Infer(InferConst::Var(ConstVid(number)))),
        Term::ConstError => Some(ConstKind::Error(ErrorGuaranteed)),
        Term::ConstPlaceholder(universe, place, name) => {
            let name = name_at(names, name)?;
            let var = BoundVar(place);
            let universe = UniverseIndex(universe);
            let bound = BoundConst { var, name };
            Some(ConstKind::Placeholder(Placeholder { universe, bound }))
        }
        _ => None,
    }
}

// A tuple of those members.
fn make_tuple<I: Interner>(cx: &mut I, members: &[GenericArg<I>]) -> Option<GenericArg<I>>
    requires { IsTrue (known (list_tree (arg_tree (I.meaning cx.old)) members.now)) }
    ensures grown { Extends (I.meaning cx.old) (I.meaning cx.new) }
    ensures made { let m = I.meaning cx.old in
        MakesTree (I.meaning cx.new) (node tuple (list_tree (arg_tree m) members.now)) result }
{
    let tys = tys_of(cx.alloc(), members)?;
    let Ok(list) = cx.mk_type_list(&tys) else {
        return None;
    };
    make_ty(cx, TyKind::Tuple(list))
}

// A value of a type.
fn make_value<I: Interner>(cx: &mut I, ty: Ty<I>, value: ValTreeForm<I>) -> Option<GenericArg<I>>
    requires ty_known { IsTrue (known ((I.meaning cx.old).ty ty)) }
    requires value_known { IsTrue (known (valtree_tree (I.meaning cx.old) value)) }
    ensures grown { Extends (I.meaning cx.old) (I.meaning cx.new) }
    ensures made { let m = I.meaning cx.old in
        MakesTree (I.meaning cx.new) (value_tree (m.ty ty) (valtree_tree m value)) result }
{
    let Ok(value) = cx.mk_valtree(value) else {
        return None;
    };
    make_const(cx, ConstKind::Value(ty, value))
}

// A value of a type that is made of constants.
fn make_branch<I: Interner>(
    cx: &mut I,
    ty: Ty<I>,
    constants: &[GenericArg<I>],
) -> Option<GenericArg<I>>
    requires ty_known { IsTrue (known ((I.meaning cx.old).ty ty)) }
    requires constants_known { IsTrue (known (list_tree (arg_tree (I.meaning cx.old)) constants.now)) }
    ensures grown { Extends (I.meaning cx.old) (I.meaning cx.new) }
    ensures made { let m = I.meaning cx.old in
        let branch = node value_branch (list_tree (arg_tree m) constants.now) in
        MakesTree (I.meaning cx.new) (value_tree (m.ty ty) branch) result }
{
    let constants = consts_of(cx.alloc(), constants)?;
    let Ok(branches) = cx.mk_branches(&constants) else {
        return None;
    };
    make_value(cx, ty, ValTreeKind::Branch(branches))
}

// An expression over its arguments.
fn make_expression<I: Interner>(
    cx: &mut I,
    kind: u32,
    args: &[GenericArg<I>],
) -> Option<GenericArg<I>>
    requires { IsTrue (known (list_tree (arg_tree (I.meaning cx.old)) args.now)) }
    ensures grown { Extends (I.meaning cx.old) (I.meaning cx.new) }
    ensures made { let m = I.meaning cx.old in
        MakesTree (I.meaning cx.new) (node (expression kind) (list_tree (arg_tree m) args.now)) result }
{
    let Ok(args) = cx.mk_args(args) else {
        return None;
    };
    make_const(cx, ConstKind::Expr(ExprKind(kind), args))
}

// A type over parts whose number is fixed.
fn make_fixed<I: Interner>(
    cx: &mut I,
    built: &[Option<GenericArg<I>>],
    term: Term,
) -> Option<GenericArg<I>>
    requires { AreKnown (I.meaning cx.old) built.now }
    ensures grown { Extends (I.meaning cx.old) (I.meaning cx.new) }
    ensures made { (items names parts : List ℕ) →
        Makes (I.meaning cx.old) (I.meaning cx.new) built.now (λ ts. text_term_tree items names parts ts term) result }
{
    match term {
        Term::Slice(element) => {
            let element = ty_at(built, element)?;
            make_ty(cx, TyKind::Slice(element))
        }
        Term::Array(element, length) => {
            let element = ty_at(built, element)?;
            let length = const_at(built, length)?;
            make_ty(cx, TyKind::Array(element, length))
        }
        Term::RawPtr(pointee, mutability) => {
            let pointee = ty_at(built, pointee)?;
            make_ty(cx, TyKind::RawPtr(pointee, mutability))
        }
        Term::Ref(region, pointee, mutability) => {
            let region = region_at(built, region)?;
            let pointee = ty_at(built, pointee)?;
            make_ty(cx, TyKind::Ref(region, pointee, mutability))
        }
        Term::Number(ty, bits, size) => {
            let ty = ty_at(built, ty)?;
            make_value(cx, ty, ValTreeKind::Leaf { bits, size })
        }
        _ => None,
    }
}

// A term over a list of parts.
fn make_listed<I: Interner>(
    cx: &mut I,
    ids: &[I::Id],
    numbers: &[usize],
    built: &[Option<GenericArg<I>>],
    term: Term,
) -> Option<GenericArg<I>>
    requires { AreKnown (I.meaning cx.old) built.now }
    ensures grown { Extends (I.meaning cx.old) (I.meaning cx.new) }
    ensures made { let m = I.meaning cx.old in (names : List ℕ) →
        Makes m (I.meaning cx.new) built.now
        (λ ts. text_term_tree (map m.id ids.now) names numbers.now ts term) result }
{
    match term {
        Term::Item(sort, item, parts) => {
            let id = name_at(ids, item)?;
            let args = keys_at(cx.alloc(), numbers, built, parts)?;
            make_item(cx, sort, id, &args)
        }
        Term::Tuple(parts) => {
            let members = keys_at(cx.alloc(), numbers, built, parts)?;
            make_tuple(cx, &members)
        }
        Term::Branch(ty, parts) => {
            let ty = ty_at(built, ty)?;
            let constants = keys_at(cx.alloc(), numbers, built, parts)?;
            make_branch(cx, ty, &constants)
        }
        Term::Expr(kind, parts) => {
            let args = keys_at(cx.alloc(), numbers, built, parts)?;
            make_expression(cx, kind, &args)
        }
        _ => None,
    }
}

// A term without parts.
fn make_leaf<I: Interner>(cx: &mut I, names: &[I::Name], term: Term) -> Option<GenericArg<I>>
    ensures grown { Extends (I.meaning cx.old) (I.meaning cx.new) }
    ensures made { let m = I.meaning cx.old in (items parts : List ℕ) (ts : List Tree) →
        MakesTree (I.meaning cx.new) (text_term_tree items (map m.name names.now) parts ts term) result }
{
    if let Some(form) = ty_leaf::<I>(names, term) {
        return make_ty(cx, form);
    }
    if let Some(form) = region_form::<I>(names, term) {
        return make_region(cx, form);
    }
    let form = const_leaf::<I>(names, term)?;
    make_const(cx, form)
}

// The key of a term that is no pattern and no predicate. There is none where a growth was refused, or there is none of
// a part.
fn make_term<I: Interner>(
    cx: &mut I,
    ids: &[I::Id],
    names: &[I::Name],
    numbers: &[usize],
    built: &[Option<GenericArg<I>>],
    inners: &[Option<InnerOf<I>>],
    term: Term,
) -> Option<GenericArg<I>>
    requires keys { AreKnown (I.meaning cx.old) built.now }
    requires inners { AreInnerKnown (I.meaning cx.old) inners.now }
    ensures grown { Extends (I.meaning cx.old) (I.meaning cx.new) }
    ensures made { MakesKey I.meaning cx.old cx.new ids.now names.now numbers.now built.now inners.now term result }
{
    match term {
        Term::Slice(_) | Term::Array(..) | Term::RawPtr(..) | Term::Ref(..) | Term::Number(..) => {
            make_fixed(cx, built, term)
        }
        Term::Item(..) | Term::Tuple(_) | Term::Branch(..) | Term::Expr(..) => {
            make_listed(cx, ids, numbers, built, term)
        }
        Term::Pat(..) => make_pattern_type(cx, built, inners, term),
        Term::Object(..) => make_object(cx, numbers, built, inners, term),
        Term::FnPtr(..) | Term::UnsafeBinder(..) => make_binder(cx, numbers, built, term),
        _ => make_leaf(cx, names, term),
    }
}

// The key of a term, or the pattern or the predicate that it is. There is none where a growth was refused, or there is
// none of a part.
pub(super) fn make_either<I: Interner>(
    cx: &mut I,
    ids: &[I::Id],
    names: &[I::Name],
    numbers: &[usize],
    built: &[Option<GenericArg<I>>],
    inners: &[Option<InnerOf<I>>],
    term: Term,
) -> (Option<GenericArg<I>>, Option<InnerOf<I>>)
    requires keys { AreKnown (I.meaning cx.old) built.now }
    requires inners { AreInnerKnown (I.meaning cx.old) inners.now }
    ensures grown { Extends (I.meaning cx.old) (I.meaning cx.new) }
    ensures key { MakesKey I.meaning cx.old cx.new ids.now names.now numbers.now built.now inners.now term result.0 }
    ensures inner { MakesPart I.meaning cx.old cx.new ids.now names.now numbers.now built.now inners.now term result.1 }
{
    match term {
        Term::Range(..) | Term::Or(_) | Term::NotNull => {
            (None, make_pattern(cx, numbers, built, inners, term))
        }
        Term::Implements(..) | Term::Projects(..) | Term::IsAuto(..) => {
            (None, make_predicate(cx, ids, numbers, built, term))
        }
        _ => (
            make_term(cx, ids, names, numbers, built, inners, term),
            None,
        ),
    }
}
