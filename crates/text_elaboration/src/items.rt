//! The reference interner with a program's items, and with what its traits state.

use crate::stating::state_all;
use reference_interner::{
    DefKind, GenericParam, GenericParamKind, ItemId, ItemKind, RefInterner, SymbolId,
};
use relation_terms::terms::{Interner, OutOfMemory, TraitId, Variance};
use std::alloc::{AllocError, Global};
use std::collections::HashMap;
use text_reading::naming::{Declared, Item, ParamSort, Program};
use text_reading::reading::ItemSort;
use text_terms::printing::{ItemText, ItemTexts, NameTexts, Texts, TraitText};

/// A program in the reference interner: the ids of its items, its names by their numbers, and the texts of both; and
/// whether each predicate that a trait states binds its variables itself.
#[derive(Drop)]
pub struct Stated<'a> {
    pub ids: Vec<ItemId>,
    pub names: Vec<SymbolId>,
    pub texts: Texts<'a, ItemId, SymbolId>,
    pub own: bool,
}

// Which kind of item an item is. Only a trait's asks for the trait.
fn def_kind(sort: ItemSort, of: ItemId) -> DefKind {
    match sort {
        ItemSort::Struct => DefKind::Adt,
        ItemSort::Fn => DefKind::Fn,
        ItemSort::Closure => DefKind::Closure,
        ItemSort::Coroutine | ItemSort::CoroutineWitness => DefKind::Coroutine,
        ItemSort::CoroutineClosure => DefKind::CoroutineClosure,
        ItemSort::Foreign => DefKind::Foreign,
        ItemSort::Trait | ItemSort::AutoTrait => DefKind::Trait,
        ItemSort::AssocTy => DefKind::AssocTy(TraitId(of)),
        ItemSort::AssocConst => DefKind::AssocConst(TraitId(of)),
        ItemSort::FreeTy => DefKind::FreeTyAlias,
        ItemSort::FreeConst => DefKind::FreeConstAlias,
        ItemSort::Opaque => DefKind::OpaqueTy,
        ItemSort::InherentTy => DefKind::InherentAssocTy,
        ItemSort::InherentConst => DefKind::InherentAssocConst,
    }
}

// What a parameter stands for.
fn param_kind(declared: &Declared) -> GenericParamKind {
    match declared.sort {
        ParamSort::Region => GenericParamKind::Lifetime,
        ParamSort::Type => GenericParamKind::Type,
        ParamSort::Const => GenericParamKind::Const,
    }
}

// Whether a type that implements a trait is the first parameter, which is not written.
fn has_self(sort: ItemSort) -> bool {
    matches!(
        sort,
        ItemSort::Trait | ItemSort::AutoTrait | ItemSort::AssocTy | ItemSort::AssocConst
    )
}

// Adds an item, behind those of these ids. No term is made of its own name and of its parameters' names, so they all
// are one name.
fn add_item(
    alloc: Global,
    cx: &mut RefInterner,
    ids: &[ItemId],
    item: &Item,
    name: SymbolId,
) -> Result<ItemId, OutOfMemory> {
    let mut params = Vec::new(alloc);
    let mut variances = Vec::new(alloc);
    if has_self(item.sort) {
        let kind = GenericParamKind::Type;
        params.push(GenericParam { kind, name })?;
        variances.push(Variance::Invariant)?;
    }
    for declared in &item.declared {
        let kind = param_kind(declared);
        params.push(GenericParam { kind, name })?;
        variances.push(declared.variance)?;
    }
    let of = item.of.and_then(|of| ids.get(of).copied());
    let def = def_kind(item.sort, of.unwrap_or(ItemId(0)));
    let id = cx.add_item(ItemKind { def, params }, name, variances)?;
    if item.sort == ItemSort::AutoTrait {
        cx.set_auto(TraitId(id));
    }
    Ok(id)
}

// Adds the items of a program.
fn add_items(cx: &mut RefInterner, program: &Program) -> Result<Vec<ItemId>, OutOfMemory> {
    let alloc = cx.alloc();
    let mut ids = Vec::new(alloc);
    let name = SymbolId(program.names.len());
    for item in &program.items {
        let id = add_item(alloc, cx, &ids, item, name)?;
        ids.push(id)?;
    }
    Ok(ids)
}

// The text of a trait, and how many parameters it has, with the type that implements it.
fn trait_text<'a>(item: &Item<'a>) -> TraitText<'a> {
    TraitText {
        text: item.text,
        count: item.declared.len().saturating_add(1),
    }
}

// The text of an item; of what a trait declares also the trait's.
fn item_text<'a>(program: &Program<'a>, item: &Item<'a>) -> ItemText<'a> {
    let of = item.of.and_then(|of| program.items.get(of)).map(trait_text);
    ItemText {
        text: item.text,
        of,
    }
}

// The texts of names by their numbers.
fn name_texts<'a>(alloc: Global, names: &[&'a str]) -> Result<NameTexts<'a, SymbolId>, AllocError> {
    let mut texts = HashMap::new(alloc);
    for (number, text) in names.iter().enumerate() {
        let _ = texts.insert(SymbolId(number), *text)?;
    }
    Ok(texts)
}

// The texts of a program's items by their ids.
fn item_texts<'a>(
    alloc: Global,
    program: &Program<'a>,
    ids: &[ItemId],
) -> Result<ItemTexts<'a, ItemId>, AllocError> {
    let mut texts = HashMap::new(alloc);
    for (item, id) in program.items.iter().zip(ids) {
        let _ = texts.insert(*id, item_text(program, item))?;
    }
    Ok(texts)
}

/// Adds the items of a program to a new interner, and lets its traits state what it says, as `state_all` tells.
///
/// # Errors
/// `OutOfMemory` where a growth was refused.
pub fn state<'a>(cx: &mut RefInterner, program: &Program<'a>) -> Result<Stated<'a>, OutOfMemory> {
    let alloc = cx.alloc();
    let ids = add_items(cx, program)?;
    let names: Vec<SymbolId> = (0..program.names.len()).map(SymbolId).collect(alloc)?;
    let own = state_all(cx, &ids, &names, program)?;
    let texts = Texts {
        names: name_texts(alloc, &program.names)?,
        items: item_texts(alloc, program, &ids)?,
    };
    Ok(Stated {
        ids,
        names,
        texts,
        own,
    })
}
