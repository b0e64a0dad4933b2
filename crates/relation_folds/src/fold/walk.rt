//! The walk of a folder through a term: one loop over the parts of all forms, so that no folder folds by itself.
//!
//! What was made of a part is kept for the length of a call, but for the first 32 and of regions, so the walk goes into
//! as many terms as there are different ones, and at most 32 more.
//!
//! The part of a binder stands one binder deeper, and all others as deep as the term that they are parts of.
ghost use Rattle.std.specs.Prelude.{◌≡◌, ◌≤◌, IsTrue, IfOk, OnOk};
ghost use Rattle.relation_terms.specs.Trees.{known, count};
ghost use Rattle.relation_terms.specs.Parts.{part_tree, parts_tree, part_sort, Alike};
ghost use Rattle.relation_folds.specs.Folds.{Steps, folded, KnownAnswer, Folds, inside_part, Remembers};
ghost use Rattle.relation_folds.specs.Firsts.{AreFirsts, firsts};
ghost use Rattle.relation_folds.specs.Stacks.{StandsUpon, Become};
ghost use Rattle.relation_folds.specs.KeyFolds.{FoldsPart, FoldsPartsOf, FoldsList};

use crate::fold::memory::{Memory, Place, keep, nothing, recall, top};
use crate::fold::{Fold, TypeFolder};
use relation_terms::terms::parts::{
    is_same, make_parts, member, member_count, parts_of, with_parts,
};
use relation_terms::terms::{Interner, OutOfMemory, Part, PartOf, Parts, PartsOf};

// What the folder puts for a part. It is asked about regions, types and constants, and puts nothing for all else.
#[inline(always)]
fn put_for<I: Interner, F: TypeFolder<I>>(
    cx: &mut I,
    part: &PartOf<I>,
    depth: u128,
    folder: &mut F,
) -> Result<Fold<PartOf<I>>, OutOfMemory>
    requires known { IsTrue (known (part_tree (I.meaning cx.old) part.now)) }
    requires ready { F.ready (I.meaning cx.old) folder.old }
    ensures steps { Steps F.ready F.replaces (I.meaning cx.old) folder.old (I.meaning cx.new) folder.new }
    ensures sure { IfOk result (λ a. KnownAnswer (part_tree (I.meaning cx.new)) a) }
    ensures made { IfOk result (λ a. Folds (F.replaces (I.meaning cx.old) folder.old) depth
        (part_tree (I.meaning cx.old) part.now) (part_tree (I.meaning cx.new)) (part_sort part.now) a) }
{
    match part {
        Part::Region(region) => match folder.fold_region(cx, region, depth)? {
            Fold::Replace(by) => Ok(Fold::Replace(Part::Region(by))),
            Fold::Descend => Ok(Fold::Descend),
        },
        Part::Ty(ty) => match folder.fold_ty(cx, ty, depth)? {
            Fold::Replace(by) => Ok(Fold::Replace(Part::Ty(by))),
            Fold::Descend => Ok(Fold::Descend),
        },
        Part::Const(constant) => match folder.fold_const(cx, constant, depth)? {
            Fold::Replace(by) => Ok(Fold::Replace(Part::Const(by))),
            Fold::Descend => Ok(Fold::Descend),
        },
        Part::ValTree(_) | Part::Pat(_) | Part::ValueType(_) => Ok(Fold::Descend),
        Part::Binder(..) | Part::Signature(_) | Part::Inputs(_) => Ok(Fold::Descend),
        Part::Existential(_) | Part::Object(_) => Ok(Fold::Descend),
    }
}

/// How many binders stand around the parts of a part under `depth` binders, if there is a number for it.
#[inline(always)]
pub fn depth_inside<X: Copy, D: Copy>(part: &Part<X, D>, depth: u128) -> Result<u128, OutOfMemory>
    ensures { IfOk result (λ d. d ≡ inside_part part.now depth) }
{
    match part {
        Part::Binder(..) => depth.checked_add(1).ok_or(OutOfMemory),
        _ => Ok(depth),
    }
}

/// A list of the first members of a list of parts, so many. The interner has to know the list of parts, and it has to
/// have that many.
///
/// It is for a walk that makes no list of what the parts become until one becomes another than it was.
///
/// Answers `OutOfMemory` where a growth was refused.
#[inline(never)]
pub fn first_members<I: Interner>(
    cx: &I,
    parts: &PartsOf<I>,
    amount: usize,
) -> Result<Vec<PartOf<I>>, OutOfMemory>
    requires list_known { IsTrue (known (parts_tree (I.meaning cx.now) parts.now)) }
    requires in_bounds { amount ≤ count (parts_tree (I.meaning cx.now) parts.now) }
    ensures { IfOk result (λ list.
        AreFirsts (part_tree (I.meaning cx.now)) amount (parts_tree (I.meaning cx.now) parts.now) list.items) }
{
    let mut list = Vec::new(cx.alloc());
    for i in 0..amount {
        list.push(member(cx, parts, i))?;
    }
    Ok(list)
}

// Puts the first members of a list of parts upon the lists that are being made, so many.
#[inline(never)]
fn push_some<I: Interner>(
    cx: &I,
    stack: &mut Vec<PartOf<I>>,
    parts: &PartsOf<I>,
    amount: usize,
) -> Result<(), OutOfMemory>
    requires list_known { IsTrue (known (parts_tree (I.meaning cx.now) parts.now)) }
    requires in_bounds { amount ≤ count (parts_tree (I.meaning cx.now) parts.now) }
    ensures { let ts = firsts amount (parts_tree (I.meaning cx.now) parts.now) in
        OnOk result (StandsUpon (part_tree (I.meaning cx.now)) ts ts stack.old.items stack.new.items) }
{
    for at in 0..amount {
        stack.push(member(cx, parts, at))?;
    }
    Ok(())
}

// The same, and mostly nothing: the first member that differs is the first one.
#[inline(always)]
fn push_firsts<I: Interner>(
    cx: &I,
    stack: &mut Vec<PartOf<I>>,
    parts: &PartsOf<I>,
    amount: usize,
) -> Result<(), OutOfMemory>
    requires list_known { IsTrue (known (parts_tree (I.meaning cx.now) parts.now)) }
    requires in_bounds { amount ≤ count (parts_tree (I.meaning cx.now) parts.now) }
    ensures { let ts = firsts amount (parts_tree (I.meaning cx.now) parts.now) in
        OnOk result (StandsUpon (part_tree (I.meaning cx.now)) ts ts stack.old.items stack.new.items) }
{
    if amount == 0 {
        return Ok(());
    }
    push_some(cx, stack, parts, amount)
}

// What the folder makes of a part that stands under `depth` binders: what it made before, where it has met it there.
#[cycle(walk)]
#[inline(always)]
fn fold_met<I: Interner, F: TypeFolder<I>>(
    cx: &mut I,
    part: &PartOf<I>,
    depth: u128,
    folder: &mut F,
    memory: &mut Memory<I::Key, I::Id>,
) -> Result<PartOf<I>, OutOfMemory>
    requires known { IsTrue (known (part_tree (I.meaning cx.old) part.now)) }
    requires ready { F.ready (I.meaning cx.old) folder.old }
    requires remembers { Remembers (I.meaning cx.old) (F.replaces (I.meaning cx.old) folder.old)
        ⟦<Place<I::Key> as PartialEq>⟧.eq (memory.old).made }
    ensures steps { Steps F.ready F.replaces (I.meaning cx.old) folder.old (I.meaning cx.new) folder.new }
    ensures remembers { Remembers (I.meaning cx.new) (F.replaces (I.meaning cx.new) folder.new)
        ⟦<Place<I::Key> as PartialEq>⟧.eq (memory.new).made }
    ensures stack { OnOk result ((memory.new).stack.items ≡ (memory.old).stack.items) }
    ensures sure { IfOk result (λ k. IsTrue (known (part_tree (I.meaning cx.new) k))) }
    ensures made { FoldsPart F.replaces (I.meaning cx.old) folder.old (I.meaning cx.new) depth part.now result }
    ensures sort { IfOk result (λ k. part_sort k ≡ part_sort part.now) }
{
    if let Some(made) = recall(cx, folder, memory, part, depth) {
        return Ok(made);
    }
    let made = fold_new(cx, part, depth, folder, memory)?;
    keep(cx, folder, memory, part, depth, made)?;
    Ok(made)
}

// The same of a part that it meets for the first time: what it puts for it, or else the part with its own parts folded.
#[cycle(walk)]
#[inline(always)]
fn fold_new<I: Interner, F: TypeFolder<I>>(
    cx: &mut I,
    part: &PartOf<I>,
    depth: u128,
    folder: &mut F,
    memory: &mut Memory<I::Key, I::Id>,
) -> Result<PartOf<I>, OutOfMemory>
    requires known { IsTrue (known (part_tree (I.meaning cx.old) part.now)) }
    requires ready { F.ready (I.meaning cx.old) folder.old }
    requires remembers { Remembers (I.meaning cx.old) (F.replaces (I.meaning cx.old) folder.old)
        ⟦<Place<I::Key> as PartialEq>⟧.eq (memory.old).made }
    ensures steps { Steps F.ready F.replaces (I.meaning cx.old) folder.old (I.meaning cx.new) folder.new }
    ensures remembers { Remembers (I.meaning cx.new) (F.replaces (I.meaning cx.new) folder.new)
        ⟦<Place<I::Key> as PartialEq>⟧.eq (memory.new).made }
    ensures stack { OnOk result ((memory.new).stack.items ≡ (memory.old).stack.items) }
    ensures sure { IfOk result (λ k. IsTrue (known (part_tree (I.meaning cx.new) k))) }
    ensures made { FoldsPart F.replaces (I.meaning cx.old) folder.old (I.meaning cx.new) depth part.now result }
    ensures sort { IfOk result (λ k. part_sort k ≡ part_sort part.now) }
{
    match put_for(cx, part, depth, folder)? {
        Fold::Replace(by) => Ok(by),
        Fold::Descend => fold_inside(cx, part, depth, folder, memory),
    }
}

// The part with its own parts folded, whatever the folder puts for it. Where they are what they were, so is the part.
#[cycle(walk)]
#[inline(always)]
fn fold_inside<I: Interner, F: TypeFolder<I>>(
    cx: &mut I,
    part: &PartOf<I>,
    depth: u128,
    folder: &mut F,
    memory: &mut Memory<I::Key, I::Id>,
) -> Result<PartOf<I>, OutOfMemory>
    requires known { IsTrue (known (part_tree (I.meaning cx.old) part.now)) }
    requires ready { F.ready (I.meaning cx.old) folder.old }
    requires remembers { Remembers (I.meaning cx.old) (F.replaces (I.meaning cx.old) folder.old)
        ⟦<Place<I::Key> as PartialEq>⟧.eq (memory.old).made }
    ensures steps { Steps F.ready F.replaces (I.meaning cx.old) folder.old (I.meaning cx.new) folder.new }
    ensures remembers { Remembers (I.meaning cx.new) (F.replaces (I.meaning cx.new) folder.new)
        ⟦<Place<I::Key> as PartialEq>⟧.eq (memory.new).made }
    ensures stack { OnOk result ((memory.new).stack.items ≡ (memory.old).stack.items) }
    ensures sure { IfOk result (λ k. IsTrue (known (part_tree (I.meaning cx.new) k))) }
    ensures made { FoldsPartsOf F.replaces (I.meaning cx.old) folder.old (I.meaning cx.new) depth part.now result }
    ensures sort { IfOk result (λ k. part_sort k ≡ part_sort part.now) }
{
    let parts = parts_of(cx, part);
    if let Parts::Empty = parts {
        return Ok(*part);
    }
    let inside = depth_inside(part, depth)?;
    let start = memory.stack.len();
    let differs = fold_members(cx, &parts, inside, folder, memory)?;
    if differs {
        let whole = with_parts(cx, part, top(memory, start));
        memory.stack.truncate(start);
        whole
    } else {
        Ok(*part)
    }
}

// The members of a list, each folded, upon the lists that are being made, or nothing where all are what they were.
// Answers whether one differs.
#[cycle(walk)]
fn fold_members<I: Interner, F: TypeFolder<I>>(
    cx: &mut I,
    parts: &PartsOf<I>,
    depth: u128,
    folder: &mut F,
    memory: &mut Memory<I::Key, I::Id>,
) -> Result<bool, OutOfMemory>
    requires known { IsTrue (known (parts_tree (I.meaning cx.old) parts.now)) }
    requires ready { F.ready (I.meaning cx.old) folder.old }
    requires remembers { Remembers (I.meaning cx.old) (F.replaces (I.meaning cx.old) folder.old)
        ⟦<Place<I::Key> as PartialEq>⟧.eq (memory.old).made }
    ensures steps { Steps F.ready F.replaces (I.meaning cx.old) folder.old (I.meaning cx.new) folder.new }
    ensures remembers { Remembers (I.meaning cx.new) (F.replaces (I.meaning cx.new) folder.new)
        ⟦<Place<I::Key> as PartialEq>⟧.eq (memory.new).made }
    ensures members { let ts = parts_tree (I.meaning cx.old) parts.now in IfOk result (λ differs.
        Become (part_tree (I.meaning cx.new)) ts (folded (F.replaces (I.meaning cx.old) folder.old) depth ts)
        (memory.old).stack.items (memory.new).stack.items differs) }
{
    let mut differs = false;
    for i in 0..member_count(cx, parts) {
        let old = member(cx, parts, i);
        let new = fold_met(cx, &old, depth, folder, memory)?;
        if differs {
            memory.stack.push(new)?;
        } else if !is_same(cx, &new, &old) {
            push_firsts(cx, &mut memory.stack, parts, i)?;
            memory.stack.push(new)?;
            differs = true;
        }
    }
    Ok(differs)
}

// What the folder makes of a part that stands under `depth` binders.
pub fn fold_part<I: Interner, F: TypeFolder<I>>(
    cx: &mut I,
    part: &PartOf<I>,
    depth: u128,
    folder: &mut F,
) -> Result<PartOf<I>, OutOfMemory>
    requires known { IsTrue (known (part_tree (I.meaning cx.old) part.now)) }
    requires ready { F.ready (I.meaning cx.old) folder.old }
    ensures steps { Steps F.ready F.replaces (I.meaning cx.old) folder.old (I.meaning cx.new) folder.new }
    ensures sure { IfOk result (λ k. IsTrue (known (part_tree (I.meaning cx.new) k))) }
    ensures made { FoldsPart F.replaces (I.meaning cx.old) folder.old (I.meaning cx.new) depth part.now result }
    ensures sort { IfOk result (λ k. part_sort k ≡ part_sort part.now) }
{
    fold_new(cx, part, depth, folder, &mut nothing(cx))
}

// The part with its own parts folded, whatever the folder puts for it.
pub fn fold_parts<I: Interner, F: TypeFolder<I>>(
    cx: &mut I,
    part: &PartOf<I>,
    depth: u128,
    folder: &mut F,
) -> Result<PartOf<I>, OutOfMemory>
    requires known { IsTrue (known (part_tree (I.meaning cx.old) part.now)) }
    requires ready { F.ready (I.meaning cx.old) folder.old }
    ensures steps { Steps F.ready F.replaces (I.meaning cx.old) folder.old (I.meaning cx.new) folder.new }
    ensures sure { IfOk result (λ k. IsTrue (known (part_tree (I.meaning cx.new) k))) }
    ensures made { FoldsPartsOf F.replaces (I.meaning cx.old) folder.old (I.meaning cx.new) depth part.now result }
    ensures sort { IfOk result (λ k. part_sort k ≡ part_sort part.now) }
{
    fold_inside(cx, part, depth, folder, &mut nothing(cx))
}

// The list with each member folded. Where they are what they were, so is the list.
pub fn fold_list<I: Interner, F: TypeFolder<I>>(
    cx: &mut I,
    parts: &PartsOf<I>,
    depth: u128,
    folder: &mut F,
) -> Result<PartsOf<I>, OutOfMemory>
    requires known { IsTrue (known (parts_tree (I.meaning cx.old) parts.now)) }
    requires ready { F.ready (I.meaning cx.old) folder.old }
    ensures steps { Steps F.ready F.replaces (I.meaning cx.old) folder.old (I.meaning cx.new) folder.new }
    ensures sure { IfOk result (λ ps. IsTrue (known (parts_tree (I.meaning cx.new) ps))) }
    ensures made { FoldsList F.replaces (I.meaning cx.old) folder.old (I.meaning cx.new) depth parts.now result }
    ensures alike { IfOk result (λ ps. Alike parts.now ps) }
{
    let mut memory = nothing(cx);
    let differs = fold_members(cx, parts, depth, folder, &mut memory)?;
    if differs {
        make_parts(cx, parts, memory.stack.as_slice())
    } else {
        Ok(*parts)
    }
}
