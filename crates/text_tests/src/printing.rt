//! How what has no text prints, and errors that no question answers.
ghost use Rattle.std.specs.Prelude.{IsTrue};
ghost use Rattle.relation_terms.specs.Trees.{known};
ghost use Rattle.relation_terms.specs.Meaning.{Extends, kind_tree};

use reference_interner::{ItemId, RefInterner, SymbolId};
use relation_folds::error::TypeError;
use relation_terms::terms::{ForeignId, Interner, ParamTy, RegionKind, RegionVid, TyForm, TyKind};
use std::alloc::Global;
use std::collections::HashMap;
use std::fmt::Write;
use std::test::Fail;
use text_asking::printing::write_error;
use text_terms::printing::{ItemText, Texts, TextsOf, write_ty};

// The first name and the first item have a text, the others have none.
fn make_texts(alloc: Global) -> Result<Texts<'static, ItemId, SymbolId>, Fail> {
    let mut names = HashMap::new(alloc);
    let _ = names.insert(SymbolId(0), "T")?;
    let mut items = HashMap::new(alloc);
    let _ = items.insert(ItemId(0), ItemText::new("Item"))?;
    Ok(Texts { names, items })
}

// Writes the type of a form, and a space.
fn write_form<I: Interner, W: Write>(
    cx: &mut I,
    texts: &TextsOf<I>,
    kind: TyForm<I>,
    out: &mut W,
) -> Result<(), Fail>
    requires { IsTrue (known (kind_tree (I.meaning cx.old) kind)) }
    ensures { Extends (I.meaning cx.old) (I.meaning cx.new) }
{
    let ty = cx.mk_ty(kind)?;
    write_ty(cx, texts, &ty, out)?;
    out.write_str(" ")?;
    Ok(())
}

// Writes a foreign type of that item, and a parameter of that name.
fn write_named<I: Interner, W: Write>(
    cx: &mut I,
    texts: &TextsOf<I>,
    id: I::Id,
    name: I::Name,
    out: &mut W,
) -> Result<(), Fail> {
    write_form(cx, texts, TyKind::Foreign(ForeignId(id)), out)?;
    write_form(cx, texts, TyKind::Param(ParamTy { index: 0, name }), out)
}

// Writes an error that names nothing, and one that names two regions.
#[tactic(auto, using(relation_terms::proofs::Stays::knows_region))]
fn write_errors<I: Interner, W: Write>(
    cx: &mut I,
    texts: &TextsOf<I>,
    out: &mut W,
) -> Result<(), Fail> {
    let longer = cx.mk_region(RegionKind::ReStatic)?;
    let shorter = cx.mk_region(RegionKind::ReVar(RegionVid(0)))?;
    write_error(cx, texts, &TypeError::ForceInlineCast, out)?;
    write_error(
        cx,
        texts,
        &TypeError::RegionsDoesNotOutlive(longer, shorter),
        out,
    )?;
    Ok(())
}

#[test]
fn what_no_question_answers_prints(rt: HostRuntime) -> Result<(), Fail> {
    let mut cx = RefInterner::new(rt.alloc());
    let texts = make_texts(rt.alloc())?;
    let mut text = String::new(rt.alloc());
    write_named(&mut cx, &texts, ItemId(0), SymbolId(0), &mut text)?;
    write_named(&mut cx, &texts, ItemId(1), SymbolId(1), &mut text)?;
    write_errors(&mut cx, &texts, &mut text)?;
    assert_eq!(rt;
        text.as_str(),
        "Item T _ _ ForceInlineCastRegionsDoesNotOutlive('static, '?0)"
    );
    Ok(())
}
