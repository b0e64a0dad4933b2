//! Resolving terms in a context at every depth.
ghost use Rattle.std.specs.Prelude.{◌≡◌, IsTrue, IfOk, OnOk};
ghost use Rattle.relation_terms.specs.Trees.{known};
ghost use Rattle.relation_terms.specs.Meaning.{Extends};
ghost use Rattle.relation_terms.specs.Parts.{part_tree, parts_tree, part_sort, parts_of, over};
ghost use Rattle.relation_semantics.specs.Stores.{InContext};
ghost use Rattle.variable_tables.specs.Tables.{store_of, IsLawful};
ghost use Rattle.relation_reference.specs.RefCtxt.{store_in, const_term};
ghost use Rattle.relation_reference.specs.Remembering.{resolved_by, Caches, IsResolvedPart};
ghost use Rattle.relation_reference.specs.Changes.{IsResolved};

use crate::context::memory::{PartKey, Resolutions, keep_resolved, recall_resolved};
use crate::context::shallow::{shallow_resolve, shallow_resolve_const};
use crate::context::{InferCtxtInner, RefCtxt};
use relation_folds::fold::first_members;
use relation_terms::terms::parts::{
    expect_const, expect_ty, is_same, member, member_count, parts_of, with_parts,
};
use relation_terms::terms::{Const, Interner, OutOfMemory, Part, PartOf, Parts, PartsOf, Ty};
use std::collections::HashMap;
use std::hash::BuildHasherDefault;

// The term itself, or for a type or a constant what it is resolved to shallowly. What that comes to is the form
// over what its parts come to.
#[inline(always)]
fn shallow_part<I: Interner>(cx: &I, inner: &InferCtxtInner<I::Key>, term: &PartOf<I>) -> PartOf<I>
    requires lawful { IsLawful (I.meaning cx.now) inner.now }
    requires term_known { IsTrue (known (part_tree (I.meaning cx.now) term.now)) }
    requires term_in { let m = I.meaning cx.now in InContext (store_of m inner.now) (part_tree m term.now) }
    ensures sure { IsTrue (known (part_tree (I.meaning cx.now) result)) }
    ensures is_in { InContext (store_of (I.meaning cx.now) inner.now) (part_tree (I.meaning cx.now) result) }
    ensures sort { part_sort result ≡ part_sort term.now }
    ensures resolves { let m = I.meaning cx.now in
        resolved_by (store_of (I.meaning cx.now) inner.now) (part_tree m result) ≡
        resolved_by (store_of (I.meaning cx.now) inner.now) (part_tree m term.now) }
    ensures by_parts { let t = part_tree (I.meaning cx.now) result in
        let st = store_of (I.meaning cx.now) inner.now in resolved_by st t ≡ over t (resolved_by st (parts_of t)) }
{
    match term {
        Part::Ty(ty) => Part::Ty(shallow_resolve(cx, inner, ty)),
        Part::Const(constant) => Part::Const(shallow_resolve_const(cx, inner, constant)),
        _ => *term,
    }
}

// The term with each variable that has a term replaced by it, at every depth, and each other by its root. What was
// met before is not resolved again, and what has no parts is not kept.
#[cycle(resolve)]
#[inline(always)]
pub(crate) fn resolve_part<I: Interner>(
    cx: &mut I,
    inner: &InferCtxtInner<I::Key>,
    term: &PartOf<I>,
    memory: &mut Resolutions<I::Key, I::Id>,
) -> Result<PartOf<I>, OutOfMemory>
    requires lawful { IsLawful (I.meaning cx.old) inner.now }
    requires remembers { Caches I.meaning cx.old inner.now ⟦<PartKey<I::Key> as PartialEq>⟧.eq memory.old }
    requires term_known { IsTrue (known (part_tree (I.meaning cx.old) term.now)) }
    requires term_in { let m = I.meaning cx.old in InContext (store_of m inner.now) (part_tree m term.now) }
    ensures grown { Extends (I.meaning cx.old) (I.meaning cx.new) }
    ensures remembers { OnOk result (Caches I.meaning cx.new inner.now ⟦<PartKey<I::Key> as PartialEq>⟧.eq memory.new) }
    ensures sure { IfOk result (λ t. IsTrue (known (part_tree (I.meaning cx.new) t))) }
    ensures sort { IfOk result (λ t. part_sort t ≡ part_sort term.now) }
    ensures resolves { IfOk result (λ t. IsResolvedPart I.meaning cx.old cx.new inner.now term.now t) }
{
    let shallow = shallow_part(&*cx, inner, term);
    let parts = parts_of(&*cx, &shallow);
    if let Parts::Empty = parts {
        return Ok(shallow);
    }
    if let Some(resolved) = recall_resolved(&*cx, inner, &shallow, memory) {
        return Ok(resolved);
    }
    let resolved = resolve_inside(cx, inner, &shallow, &parts, memory)?;
    keep_resolved(&*cx, inner, &shallow, resolved, memory)?;
    Ok(resolved)
}

// The same of a term that comes to the form over what its parts, `own`, come to. Where they come to what they are,
// nothing is made.
#[cycle(resolve)]
fn resolve_inside<I: Interner>(
    cx: &mut I,
    inner: &InferCtxtInner<I::Key>,
    term: &PartOf<I>,
    own: &PartsOf<I>,
    memory: &mut Resolutions<I::Key, I::Id>,
) -> Result<PartOf<I>, OutOfMemory>
    requires parts_known { IsTrue (known (parts_tree (I.meaning cx.old) own.now)) }
    requires parts { let m = I.meaning cx.old in parts_tree m own.now ≡ parts_of (part_tree m term.now) }
    requires lawful { IsLawful (I.meaning cx.old) inner.now }
    requires remembers { Caches I.meaning cx.old inner.now ⟦<PartKey<I::Key> as PartialEq>⟧.eq memory.old }
    requires term_known { IsTrue (known (part_tree (I.meaning cx.old) term.now)) }
    requires term_in { let m = I.meaning cx.old in InContext (store_of m inner.now) (part_tree m term.now) }
    requires by_parts { let t = part_tree (I.meaning cx.old) term.now in
        let st = store_of (I.meaning cx.old) inner.now in resolved_by st t ≡ over t (resolved_by st (parts_of t)) }
    ensures grown { Extends (I.meaning cx.old) (I.meaning cx.new) }
    ensures remembers { OnOk result (Caches I.meaning cx.new inner.now ⟦<PartKey<I::Key> as PartialEq>⟧.eq memory.new) }
    ensures sure { IfOk result (λ t. IsTrue (known (part_tree (I.meaning cx.new) t))) }
    ensures sort { IfOk result (λ t. part_sort t ≡ part_sort term.now) }
    ensures resolves { IfOk result (λ t. IsResolvedPart I.meaning cx.old cx.new inner.now term.now t) }
{
    let mut parts = Vec::new(cx.alloc());
    let mut differs = false;
    for i in 0..member_count(&*cx, own) {
        let next = member(&*cx, own, i);
        let resolved = resolve_part(cx, inner, &next, memory)?;
        if differs {
            parts.push(resolved)?;
        } else if !is_same(&*cx, &resolved, &next) {
            parts = first_members(&*cx, own, i)?;
            parts.push(resolved)?;
            differs = true;
        }
    }
    if differs {
        with_parts(cx, term, parts.as_slice())
    } else {
        Ok(*term)
    }
}

impl<I: Interner> RefCtxt<I> {
    // The type with each variable that has a term replaced by it, at every depth, and each other by its root.
    pub(crate) fn resolve_ty(&mut self, ty: &Ty<I>) -> Result<Ty<I>, OutOfMemory>
        requires lawful { IsLawful (I.meaning self.old.interner) self.old.inner }
        requires ty_known { IsTrue (known ((I.meaning self.old.interner).ty ty.now)) }
        requires ty_in { InContext (store_in I.meaning self.old) ((I.meaning self.old.interner).ty ty.now) }
        ensures inner { self.new.inner ≡ self.old.inner }
        ensures grown { Extends (I.meaning self.old.interner) (I.meaning self.new.interner) }
        ensures sure { IfOk result (λ t. IsTrue (known ((I.meaning self.new.interner).ty t))) }
        ensures resolves { IfOk result (λ t. IsResolved I.meaning self.old self.new (λ m. m.ty) ty.now t) }
    {
        let mut memory = HashMap::with_hasher(self.interner.alloc(), BuildHasherDefault::new());
        let resolved = resolve_part(&mut self.interner, &self.inner, &Part::Ty(*ty), &mut memory);
        Ok(expect_ty(&resolved?))
    }

    // The constant with each variable that has a term replaced by it, at every depth, and each other by its root.
    pub(crate) fn resolve_const(&mut self, constant: &Const<I>) -> Result<Const<I>, OutOfMemory>
        requires lawful { IsLawful (I.meaning self.old.interner) self.old.inner }
        requires const_known { IsTrue (known ((I.meaning self.old.interner).const_ constant.now)) }
        requires const_in { InContext (store_in I.meaning self.old) (const_term I.meaning self.old constant.now) }
        ensures inner { self.new.inner ≡ self.old.inner }
        ensures grown { Extends (I.meaning self.old.interner) (I.meaning self.new.interner) }
        ensures sure { IfOk result (λ t. IsTrue (known ((I.meaning self.new.interner).const_ t))) }
        ensures resolves { IfOk result (λ t. IsResolved I.meaning self.old self.new (λ m. m.const_) constant.now t) }
    {
        let mut memory = HashMap::with_hasher(self.interner.alloc(), BuildHasherDefault::new());
        let resolved = resolve_part(
            &mut self.interner,
            &self.inner,
            &Part::Const(*constant),
            &mut memory,
        );
        Ok(expect_const(&resolved?))
    }
}
