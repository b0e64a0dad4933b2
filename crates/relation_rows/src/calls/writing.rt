//! What calls answer is written, over any interner.
ghost use Rattle.std.specs.Prelude.{IsTrue, IsSome};
ghost use Rattle.relation_terms.specs.Trees.{known, list_tree};
ghost use Rattle.relation_terms.specs.Meaning.{arg_tree};
ghost use Rattle.relation_terms.specs.Predicates.{item_parent};

use crate::calls::making::{
    make_object, make_params, make_plain, make_region, make_type_and_region,
};
use crate::running::RowFault;
use relation_terms::predicate::{
    AliasTerm, AliasTermKind, OutlivesPredicate, RegionConstraint, RegionEqPredicate,
};
use relation_terms::terms::{
    DefId, GenericArg, GenericArgKind, InherentAssocTyId, Interner, Region, TraitAssocTyId,
    TraitId, TyKind,
};
use std::fmt::{self, Write};
use text_clauses::printing::write_trait_ref;
use text_terms::printing::{TextsOf, write_arg, write_item_name, write_region};

// Writes arguments between two signs, with `, ` between; nothing where there are none.
fn write_args<I: Interner, W: Write>(
    cx: &I,
    texts: &TextsOf<I>,
    open: &str,
    args: &[GenericArg<I>],
    close: &str,
    out: &mut W,
) -> fmt::Result
    requires { IsTrue (known (list_tree (arg_tree (I.meaning cx.now)) args.now)) }
{
    let mut any = false;
    for term in args {
        out.write_str(if any { ", " } else { open })?;
        write_arg(cx, texts, term, out)?;
        any = true;
    }
    if any { out.write_str(close) } else { Ok(()) }
}

// Writes the arguments of an inherent alias over two parameters, rebased onto `[u8, bool]`.
#[tactic(auto, using(relation_terms::proofs::Stays::knows_args))]
pub(super) fn write_rebased<I: Interner, W: Write>(
    cx: &mut I,
    texts: &TextsOf<I>,
    id: I::Id,
    names: (I::Name, I::Name),
    out: &mut W,
) -> Result<(), RowFault> {
    let args = make_params(cx, names.0, names.1)?;
    let impl_args = make_plain(cx)?;
    let def_id = InherentAssocTyId(id);
    let kind = AliasTermKind::InherentTy { def_id };
    let alias = AliasTerm { kind, args };
    let rebased = alias.rebase_inherent_args_onto_impl(&impl_args, cx)?;
    write_args(cx, texts, "[", cx.args(&rebased), "]", out)?;
    Ok(())
}

// Writes of an associated type over a parameter and a region of its own the trait, and what is its own.
#[tactic(auto, using(relation_terms::proofs::Stays::knows_args, crate::proofs::Arguments::parent_on))]
pub(super) fn write_projection<I: Interner, W: Write>(
    cx: &mut I,
    texts: &TextsOf<I>,
    id: I::Id,
    names: (I::Name, I::Name),
    out: &mut W,
) -> Result<(), RowFault>
    requires declared { IsSome (item_parent (I.meaning cx.old) id) }
{
    let args = make_type_and_region(cx, names.0, names.1)?;
    let def_id = TraitAssocTyId(id);
    let kind = AliasTermKind::ProjectionTy { def_id };
    let alias = AliasTerm { kind, args };
    let trait_ref = alias.trait_ref(cx)?;
    write_trait_ref(cx, texts, &trait_ref, out)?;
    out.write_str(" | ")?;
    write_args(cx, texts, "[", alias.own_args(cx), "]", out)?;
    Ok(())
}

// Writes a trait over `u32` without the type that implements it, and that `bool` implements it.
#[tactic(auto, using(relation_terms::proofs::Stays::knows_args))]
pub(super) fn write_object<I: Interner, W: Write>(
    cx: &mut I,
    texts: &TextsOf<I>,
    def_id: TraitId<I::Id>,
    name: I::Name,
    out: &mut W,
) -> Result<(), RowFault> {
    let object = make_object(cx, def_id, name)?;
    write_item_name::<I, W>(texts, &DefId(def_id.0), out)?;
    write_args(cx, texts, "<", cx.args(&object.args), ">", out)?;
    out.write_str(" | ")?;
    let ty = cx.mk_ty(TyKind::Bool)?;
    let trait_ref = object.with_self_ty(cx, ty)?;
    write_trait_ref(cx, texts, &trait_ref, out)?;
    Ok(())
}

// Writes what outlives which where two regions are equal.
fn write_outlives<I: Interner, W: Write>(
    cx: &I,
    texts: &TextsOf<I>,
    a: Region<I>,
    b: Region<I>,
    out: &mut W,
) -> fmt::Result
    requires a { IsTrue (known ((I.meaning cx.now).region a)) }
    requires b { IsTrue (known ((I.meaning cx.now).region b)) }
{
    let equal = RegionConstraint::from(RegionEqPredicate(a, b));
    for outlives in equal.iter_outlives() {
        write_arg(cx, texts, &outlives.0, out)?;
        out.write_str(": ")?;
        write_region(cx, texts, &outlives.1, out)?;
        out.write_str(" | ")?;
    }
    out.write_str("end")
}

// Writes the same of two parameters, and whether it is trivial that the first outlives itself, and that they are equal.
#[tactic(auto, using(relation_terms::proofs::Stays::knows_region))]
pub(super) fn write_constraints<I: Interner, W: Write>(
    cx: &mut I,
    texts: &TextsOf<I>,
    names: (I::Name, I::Name),
    out: &mut W,
) -> Result<(), RowFault> {
    let a = make_region(cx, 0, names.0)?;
    let b = make_region(cx, 1, names.1)?;
    write_outlives(cx, texts, a, b, out)?;
    let outlives = OutlivesPredicate(GenericArgKind::Lifetime(a), a);
    let same = RegionConstraint::from(outlives).is_trivial();
    let equal = RegionConstraint::from(RegionEqPredicate(a, b)).is_trivial();
    write!(out, " | {same} | {equal}")?;
    Ok(())
}
