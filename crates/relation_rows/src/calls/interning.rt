//! The interner that calls are made over: what its items and names are called.
ghost use Rattle.std.specs.Prelude.{IfOk, IsSome};
ghost use Rattle.relation_terms.specs.Predicates.{item_parent};
ghost use Rattle.reference_interner.specs.Adding.{meaning_in};

use crate::calls::relating::relate_new;
use crate::calls::writing::{write_constraints, write_object, write_projection, write_rebased};
use crate::calls::{Differing, Terms};
use crate::running::RowFault;
use reference_interner::{
    DefKind, GenericParam, GenericParamKind, ItemId, ItemKind, RefInterner, SymbolId,
};
use relation_terms::terms::{Interner, OutOfMemory, TraitId, Variance};
use std::alloc::Global;
use std::collections::HashMap;
use std::fmt::Write;
use text_terms::printing::{ItemText, ItemTexts, NameTexts, Texts};

// The names of parameters, and four traits.
const OF: SymbolId = SymbolId(0);

const OWN: SymbolId = SymbolId(1);

const LONGER: SymbolId = SymbolId(2);

const SHORTER: SymbolId = SymbolId(3);

const STREAMING_ITERATOR: ItemId = ItemId(0);

pub(super) const PARTIAL_EQ: ItemId = ItemId(1);

const TR: ItemId = ItemId(2);

const US: ItemId = ItemId(3);

// The texts of the names.
fn name_texts(alloc: Global) -> Result<NameTexts<'static, SymbolId>, OutOfMemory> {
    let mut names = HashMap::new(alloc);
    for (name, text) in [(OF, "T"), (OWN, "P"), (LONGER, "'a"), (SHORTER, "'b")] {
        let _ = names.insert(name, text)?;
    }
    Ok(names)
}

// The texts of the traits.
fn item_texts(alloc: Global) -> Result<ItemTexts<'static, ItemId>, OutOfMemory> {
    let mut items = HashMap::new(alloc);
    for (item, text) in [
        (STREAMING_ITERATOR, "StreamingIterator"),
        (PARTIAL_EQ, "PartialEq"),
        (TR, "Tr"),
        (US, "Us"),
    ] {
        let _ = items.insert(item, ItemText::new(text))?;
    }
    Ok(items)
}

// The texts of the names and the traits.
fn make_texts(alloc: Global) -> Result<Texts<'static, ItemId, SymbolId>, OutOfMemory> {
    let names = name_texts(alloc)?;
    let items = item_texts(alloc)?;
    Ok(Texts { names, items })
}

// The first trait, and an associated type of it.
fn add_associated(cx: &mut RefInterner) -> Result<ItemId, OutOfMemory>
    ensures { IfOk result (λ d. IsSome (item_parent (meaning_in cx.new) d)) }
{
    let alloc = cx.alloc();
    let kind = GenericParamKind::Type;
    let mut params = Vec::new(alloc);
    params.push(GenericParam { kind, name: OF })?;
    let mut variances = Vec::new(alloc);
    variances.push(Variance::Invariant)?;
    let def = DefKind::Trait;
    let of = cx.add_item(ItemKind { def, params }, OF, variances)?;
    let def = DefKind::AssocTy(TraitId(of));
    let params = Vec::new(alloc);
    let item = cx.add_item(ItemKind { def, params }, OF, Vec::new(alloc))?;
    Ok(item)
}

// Writes what is made of terms over an interner that has the first trait and its associated type.
fn write_in<W: Write>(
    cx: &mut RefInterner,
    texts: &Texts<'static, ItemId, SymbolId>,
    of: Terms,
    out: &mut W,
) -> Result<(), RowFault> {
    let item = add_associated(cx)?;
    match of {
        Terms::Rebased => write_rebased(cx, texts, item, (OF, OWN), out),
        Terms::Projected => write_projection(cx, texts, item, (OF, LONGER), out),
        Terms::Erased => write_object(cx, texts, TraitId(PARTIAL_EQ), OF, out),
        Terms::Regions => write_constraints(cx, texts, (LONGER, SHORTER), out),
    }
}

/// Writes what is made of terms.
pub(super) fn write_terms<W: Write>(alloc: Global, of: Terms, out: &mut W) -> Result<(), RowFault> {
    let texts = make_texts(alloc)?;
    let mut cx = RefInterner::new(alloc);
    write_in(&mut cx, &texts, of, out)
}

/// Writes why two predicates that differ in their polarity aren't related, or two references of traits.
pub(super) fn write_unrelated<W: Write>(
    alloc: Global,
    differing: Differing,
    out: &mut W,
) -> Result<(), RowFault> {
    let texts = make_texts(alloc)?;
    let traits = (TraitId(TR), TraitId(US));
    relate_new(RefInterner::new(alloc), &texts, traits, differing, out)
}
