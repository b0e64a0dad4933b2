//! Reading terms through a relation's interner.
ghost use Rattle.std.specs.Prelude.{◌≡◌, ◌≢◌, ◌↔◌, ◌<◌, None, IsTrue, OnOk, IfOk, IfErr};
ghost use Rattle.relation_terms.specs.Trees.{known, count, nth, IsList};
ghost use Rattle.term_enums.specs.declared.Variance.TheVariants.{Bivariant};
ghost use Rattle.relation_terms.specs.Meaning.{arg_tree};
ghost use Rattle.relation_terms.specs.Parts.{part_tree, part_sort};
ghost use Rattle.relation_semantics.specs.Relation.{IsError};
ghost use Rattle.relation_semantics.specs.Errors.{ConstFormError, AreOfOneForm, AreOfOneConst, HaveNoError};
ghost use Rattle.relation_semantics.specs.Parts.{IsFormedConst, IsByParts, IsComparedPart, direct_parts, const_parts_of};
ghost use Rattle.relation_steps.specs.Keyed.{ShownTys, NotedTys, TysAskOpen, AreOver};
ghost use Rattle.relation_steps.specs.Terms.{AskedTerms};
ghost use Rattle.relation_recursion.specs.Comparing.{AreOfOneFormBy, PartsDiffer, nth_part, nth_const_part};
ghost use Rattle.part_variances.specs.PartErrors.{named_place};

use crate::comparing::{compare_consts, compare_members, compare_parts};
use crate::parts::{parts_in, related_part};
use part_variances::part_errors;
use relation_folds::error::{RelateResult, TypeErrorOf};
use relation_steps::type_relation::TypeRelation;
use relation_terms::terms::parts::{expect_arg, member};
use relation_terms::terms::{
    Const, ConstKind, DefId, GenericArg, GenericArgs, Interner, ItemOf, PartOf, Ty, TyKind, parts,
};

// Whether a constant stands for an error.
pub(crate) fn is_error_const_of<I: Interner, R: TypeRelation<I>>(r: &R, constant: &Const<I>) -> bool
    requires { IsTrue (known ((R.state r.now).meaning.const_ constant.now)) }
    ensures { IsTrue result ↔ IsError ((R.state r.now).meaning.const_ constant.now) }
{
    matches!(r.cx().const_kind(constant), ConstKind::Error(_))
}

pub(crate) fn compare_consts_of<I: Interner, R: TypeRelation<I>>(
    r: &R,
    a: &Const<I>,
    b: &Const<I>,
) -> Result<(), TypeErrorOf<I>>
    requires a_known { IsTrue (known ((R.state r.now).meaning.const_ a.now)) }
    requires b_known { IsTrue (known ((R.state r.now).meaning.const_ b.now)) }
    requires a_formed { IsFormedConst ((R.state r.now).meaning.const_ a.now) }
    requires b_formed { IsFormedConst ((R.state r.now).meaning.const_ b.now) }
    requires no_error { HaveNoError ((R.state r.now).meaning.const_ a.now) ((R.state r.now).meaning.const_ b.now) }
    ensures alike { let m = (R.state r.now).meaning in OnOk result (AreOfOneConst (m.const_ a.now) (m.const_ b.now)) }
    ensures errors { IfErr result (ConstFormError (R.state r.now).meaning a.now b.now) }
{
    compare_consts(r.cx(), a, b)
}

pub(crate) fn compare_parts_of<I: Interner, R: TypeRelation<I>>(
    r: &R,
    a: &PartOf<I>,
    b: &PartOf<I>,
) -> Result<(), TypeErrorOf<I>>
    requires a_known { IsTrue (known (part_tree (R.state r.now).meaning a.now)) }
    requires b_known { IsTrue (known (part_tree (R.state r.now).meaning b.now)) }
    requires kind { IsComparedPart a.now }
    requires one_sort { part_sort b.now ≡ part_sort a.now }
    ensures alike { OnOk result (AreOfOneFormBy part_tree (R.state r.now).meaning a.now b.now) }
    ensures errors { IfErr result (PartsDiffer (R.state r.now).meaning a.now b.now) }
{
    compare_parts(r.cx(), a, b)
}

pub(crate) fn compare_members_of<I: Interner, R: TypeRelation<I>>(
    r: &R,
    a: &PartOf<I>,
    b: &PartOf<I>,
    i: usize,
) -> Result<(), TypeErrorOf<I>>
    requires a_known { IsTrue (known (part_tree (R.state r.now).meaning a.now)) }
    requires b_known { IsTrue (known (part_tree (R.state r.now).meaning b.now)) }
    requires in_a { i < count (direct_parts (part_tree (R.state r.now).meaning a.now)) }
    requires in_b { i < count (direct_parts (part_tree (R.state r.now).meaning b.now)) }
    requires one_sort { part_sort b.now ≡ part_sort a.now }
    ensures { IfErr result (PartsDiffer (R.state r.now).meaning a.now b.now) }
{
    compare_members(r.cx(), a, b, i)
}

// The part of a type at a place. Places count from 0, in the order in which parts are related.
#[inline(always)]
pub(crate) fn part_of<I: Interner, R: TypeRelation<I>>(r: &R, ty: &Ty<I>, i: usize) -> GenericArg<I>
    requires ty_known { IsTrue (known ((R.state r.now).meaning.ty ty.now)) }
    requires over_args { IsByParts ((R.state r.now).meaning.ty ty.now) → ⊥ }
    requires in_bounds { i < count (direct_parts ((R.state r.now).meaning.ty ty.now)) }
    ensures sure { IsTrue (known (arg_tree (R.state r.now).meaning result)) }
    ensures means { arg_tree (R.state r.now).meaning result ≡ nth i (direct_parts ((R.state r.now).meaning.ty ty.now)) }
{
    let cx = r.cx();
    expect_arg(&member(cx, &parts_in(cx, ty, &cx.ty_kind(ty)), i))
}

pub(crate) fn const_parts_count_of<I: Interner, R: TypeRelation<I>>(
    r: &R,
    constant: &Const<I>,
) -> usize
    requires { IsTrue (known ((R.state r.now).meaning.const_ constant.now)) }
    ensures counts { result ≡ count (const_parts_of ((R.state r.now).meaning.const_ constant.now)) }
    ensures is_list { IsList (const_parts_of ((R.state r.now).meaning.const_ constant.now)) }
{
    let cx = r.cx();
    parts::parts_count(cx, &related_part(cx, constant))
}

pub(crate) fn const_part_of<I: Interner, R: TypeRelation<I>>(
    r: &R,
    constant: &Const<I>,
    i: usize,
) -> GenericArg<I>
    requires constant_known { IsTrue (known ((R.state r.now).meaning.const_ constant.now)) }
    requires in_bounds { i < count (const_parts_of ((R.state r.now).meaning.const_ constant.now)) }
    ensures sure { IsTrue (known (arg_tree (R.state r.now).meaning result)) }
    ensures means { let m = (R.state r.now).meaning in arg_tree m result ≡ nth_const_part m i constant.now }
{
    let cx = r.cx();
    expect_arg(&parts::part(cx, &related_part(cx, constant), i))
}

pub(crate) fn term_parts_count_of<I: Interner, R: TypeRelation<I>>(r: &R, term: &PartOf<I>) -> usize
    requires known { IsTrue (known (part_tree (R.state r.now).meaning term.now)) }
    requires form { IsByParts (part_tree (R.state r.now).meaning term.now) }
    ensures { result ≡ count (direct_parts (part_tree (R.state r.now).meaning term.now)) }
{
    parts::parts_count(r.cx(), term)
}

pub(crate) fn term_part_of<I: Interner, R: TypeRelation<I>>(
    r: &R,
    term: &PartOf<I>,
    i: usize,
) -> PartOf<I>
    requires term_known { IsTrue (known (part_tree (R.state r.now).meaning term.now)) }
    requires form { IsByParts (part_tree (R.state r.now).meaning term.now) }
    requires in_bounds { i < count (direct_parts (part_tree (R.state r.now).meaning term.now)) }
    ensures sure { IsTrue (known (part_tree (R.state r.now).meaning result)) }
    ensures means { let m = (R.state r.now).meaning in part_tree m result ≡ nth_part m i term.now }
{
    parts::part(r.cx(), term, i)
}

// The place that an error of the parts of two terms at place `i` names.
pub(crate) fn named_place_of<I: Interner, R: TypeRelation<I>>(
    r: &R,
    term: &PartOf<I>,
    i: usize,
) -> Option<usize>
    requires term_known { IsTrue (known (part_tree (R.state r.now).meaning term.now)) }
    requires in_bounds { i < count (direct_parts (part_tree (R.state r.now).meaning term.now)) }
    ensures { result ≡ named_place (part_tree (R.state r.now).meaning term.now) i }
{
    part_errors::named_place(r.cx(), term, i)
}

// Has the relation take note of arguments that were related at declared variances. It stands apart, so that the
// recursion takes less of the stack.
#[inline(never)]
pub(crate) fn note_declared<I: Interner, R: TypeRelation<I>>(
    r: &mut R,
    a: &Ty<I>,
    b: &Ty<I>,
    def_id: &ItemOf<I>,
    a_args: &GenericArgs<I>,
    b_args: &GenericArgs<I>,
) -> RelateResult<I, ()>
    requires lawful { (R.state r.old).lawful }
    requires decides { (R.state r.old).ambient ≢ Bivariant }
    requires asked { AskedTerms R.manner None (λ m. m.ty) (R.state r.old) a.now b.now }
    requires over { AreOver (R.state r.old) def_id.now a.now b.now a_args.now b_args.now }
    requires related { ShownTys R.manner (R.state r.old) a.now b.now }
    ensures noted { NotedTys (R.state r.old) (R.state r.new) a.now b.now result }
    ensures asks { TysAskOpen R.manner (R.state r.old) (R.state r.new) a.now b.now result }
{
    if r.item_variances(def_id).is_none() {
        return Ok(());
    }
    r.note_ty_args(a, b, def_id, a_args, b_args)
}

// The same of two types, if they are over an item whose arguments have declared variances.
#[inline(always)]
pub(crate) fn note_args<I: Interner, R: TypeRelation<I>>(
    r: &mut R,
    a: &Ty<I>,
    b: &Ty<I>,
) -> RelateResult<I, ()>
    requires lawful { (R.state r.old).lawful }
    requires decides { (R.state r.old).ambient ≢ Bivariant }
    requires asked { AskedTerms R.manner None (λ m. m.ty) (R.state r.old) a.now b.now }
    requires one_form { AreOfOneForm ((R.state r.old).meaning.ty a.now) ((R.state r.old).meaning.ty b.now) }
    requires related { ShownTys R.manner (R.state r.old) a.now b.now }
    ensures noted { NotedTys (R.state r.old) (R.state r.new) a.now b.now result }
    ensures asks { TysAskOpen R.manner (R.state r.old) (R.state r.new) a.now b.now result }
{
    let left = r.cx().ty_kind(a);
    match &left {
        TyKind::Adt(def, a_args) => {
            let TyKind::Adt(_, b_args) = &r.cx().ty_kind(b) else {
                return Ok(());
            };
            note_declared(r, a, b, &DefId(def.0), a_args, b_args)
        }
        TyKind::FnDef(def, a_args) => {
            let TyKind::FnDef(_, b_args) = &r.cx().ty_kind(b) else {
                return Ok(());
            };
            note_declared(r, a, b, &DefId(def.0), a_args, b_args)
        }
        _ => Ok(()),
    }
}
