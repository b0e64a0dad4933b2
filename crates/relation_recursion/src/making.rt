//! Terms made anew, of one's form over other parts.
ghost use Rattle.std.specs.Prelude.{◌≡◌, IsTrue, IfOk, map};
ghost use Rattle.relation_terms.specs.Trees.{known, list_tree};
ghost use Rattle.relation_terms.specs.Meaning.{arg_tree};
ghost use Rattle.relation_terms.specs.Parts.{part_tree, part_of_arg, part_sort, Fit};
ghost use Rattle.relation_semantics.specs.Parts.{direct_parts, const_parts_of, IsByParts};
ghost use Rattle.relation_semantics.specs.Lawful.{WithMeaning, OnlyMemory};
ghost use Rattle.relation_semantics.specs.Making.{FitArgs};
ghost use Rattle.relation_steps.specs.Keyed.{MakesTyOver, MakesConstOver, MakesPartOver};

use relation_folds::error::RelateResult;
use relation_steps::type_relation::TypeRelation;
use relation_terms::terms::parts::{expect_const, expect_ty, expect_valtree, of_arg, with_parts};
use relation_terms::terms::{
    Const, ConstKind, GenericArg, GenericArgKind, Interner, OutOfMemory, Part, PartOf, Ty,
};
use std::alloc::Global;

// Generic arguments as parts.
fn as_parts<X: Copy, D: Copy>(
    args: &[GenericArgKind<X>],
    alloc: Global,
) -> Result<Vec<Part<X, D>>, OutOfMemory>
    ensures { IfOk result (λ list. list.items ≡ map part_of_arg args.now) }
{
    let mut list = Vec::new(alloc);
    for i in 0..args.len() {
        list.push(of_arg(&args[i]))?;
    }
    Ok(list)
}

// The type of that one's form over these parts, which are of the kinds of its own.
fn ty_with_parts<I: Interner>(
    cx: &mut I,
    ty: &Ty<I>,
    args: &[GenericArg<I>],
) -> Result<Ty<I>, OutOfMemory>
    requires ty_known { IsTrue (known ((I.meaning cx.old).ty ty.now)) }
    requires args_known { IsTrue (known (list_tree (arg_tree (I.meaning cx.old)) args.now)) }
    requires fits { FitArgs args.now (direct_parts ((I.meaning cx.old).ty ty.now)) }
    ensures { MakesTyOver (I.meaning cx.old) (I.meaning cx.new) ty.now args.now result }
{
    let parts = as_parts(args, cx.alloc())?;
    let made = with_parts(cx, &Part::Ty(*ty), parts.as_slice())?;
    Ok(expect_ty(&made))
}

// The constant of that one's form over these parts, which are of the kinds of its own.
fn const_with_parts<I: Interner>(
    cx: &mut I,
    constant: &Const<I>,
    args: &[GenericArg<I>],
) -> Result<Const<I>, OutOfMemory>
    requires constant_known { IsTrue (known ((I.meaning cx.old).const_ constant.now)) }
    requires args_known { IsTrue (known (list_tree (arg_tree (I.meaning cx.old)) args.now)) }
    requires fits { FitArgs args.now (const_parts_of ((I.meaning cx.old).const_ constant.now)) }
    ensures { MakesConstOver (I.meaning cx.old) (I.meaning cx.new) constant.now args.now result }
{
    let parts = as_parts(args, cx.alloc())?;
    match cx.const_kind(constant) {
        ConstKind::Value(ty, value) => {
            let value = with_parts(cx, &Part::ValTree(value), parts.as_slice())?;
            cx.mk_const(ConstKind::Value(ty, expect_valtree(&value)))
        }
        _ => {
            let made = with_parts(cx, &Part::Const(*constant), parts.as_slice())?;
            Ok(expect_const(&made))
        }
    }
}

// The same through a relation: nothing of it changes but what its interner knows.
pub(crate) fn make_ty<I: Interner, R: TypeRelation<I>>(
    r: &mut R,
    ty: &Ty<I>,
    parts: &[GenericArg<I>],
) -> RelateResult<I, Ty<I>>
    requires lawful { (R.state r.old).lawful }
    requires ty_known { IsTrue (known ((R.state r.old).meaning.ty ty.now)) }
    requires parts_known { IsTrue (known (list_tree (arg_tree (R.state r.old).meaning) parts.now)) }
    requires fits { FitArgs parts.now (direct_parts ((R.state r.old).meaning.ty ty.now)) }
    ensures grown { WithMeaning (R.state r.old) (R.state r.new).meaning (R.state r.new) }
    ensures fault { OnlyMemory result }
    ensures made { MakesTyOver (R.state r.old).meaning (R.state r.new).meaning ty.now parts.now result }
{
    r.lemma_interner_grows();
    let made = ty_with_parts(r.cx_mut(), ty, parts)?;
    Ok(made)
}

// The same of constants.
pub(crate) fn make_const<I: Interner, R: TypeRelation<I>>(
    r: &mut R,
    constant: &Const<I>,
    parts: &[GenericArg<I>],
) -> RelateResult<I, Const<I>>
    requires lawful { (R.state r.old).lawful }
    requires constant_known { IsTrue (known ((R.state r.old).meaning.const_ constant.now)) }
    requires parts_known { IsTrue (known (list_tree (arg_tree (R.state r.old).meaning) parts.now)) }
    requires fits { FitArgs parts.now (const_parts_of ((R.state r.old).meaning.const_ constant.now)) }
    ensures grown { WithMeaning (R.state r.old) (R.state r.new).meaning (R.state r.new) }
    ensures fault { OnlyMemory result }
    ensures made { MakesConstOver (R.state r.old).meaning (R.state r.new).meaning constant.now parts.now result }
{
    r.lemma_interner_grows();
    let made = const_with_parts(r.cx_mut(), constant, parts)?;
    Ok(made)
}

// The same of terms that are related by their parts.
pub(crate) fn make_part<I: Interner, R: TypeRelation<I>>(
    r: &mut R,
    term: &PartOf<I>,
    parts: &[PartOf<I>],
) -> RelateResult<I, PartOf<I>>
    requires lawful { (R.state r.old).lawful }
    requires term_known { IsTrue (known (part_tree (R.state r.old).meaning term.now)) }
    requires form { IsByParts (part_tree (R.state r.old).meaning term.now) }
    requires parts_known { IsTrue (known (list_tree (part_tree (R.state r.old).meaning) parts.now)) }
    requires fits { Fit parts.now (direct_parts (part_tree (R.state r.old).meaning term.now)) }
    ensures grown { WithMeaning (R.state r.old) (R.state r.new).meaning (R.state r.new) }
    ensures fault { OnlyMemory result }
    ensures made { MakesPartOver (R.state r.old).meaning (R.state r.new).meaning term.now parts.now result }
    ensures sort { IfOk result (λ p. part_sort p ≡ part_sort term.now) }
{
    r.lemma_interner_grows();
    let made = with_parts(r.cx_mut(), term, parts)?;
    Ok(made)
}
