//! The components of a term: one recursion over the parts of all forms, that goes into each type and constant once.
ghost use Rattle.std.specs.Prelude.{◌≡◌, ◌<◌, ◌++◌, ◌∷◌, [], suc, true, IsTrue, IfOk, OnOk, OnErr};
ghost use Rattle.std.specs.Map.{keys_of};
ghost use Rattle.relation_terms.specs.Trees.{known, size, count};
ghost use Rattle.relation_terms.specs.Meaning.{kind_tree};
ghost use Rattle.relation_terms.specs.Parts.{part_tree, parts_tree};
ghost use Rattle.relation_terms.specs.declared.terms.ty_kind.TyKind.TheVariants.{Alias as AliasForm};
ghost use Rattle.component_parts.specs.Components.{components};
ghost use Rattle.component_parts.specs.Choosing.{meant};
ghost use Rattle.relation_folds.specs.Visits.{bound_var_escapes};
ghost use Rattle.outlives.specs.Outliving.{AddsSome, HasAll};
ghost use Rattle.outlives.specs.Collecting.{of_member, kept_of};
ghost use Rattle.outlives.specs.Collecting.{Ready, Settled, Meets, Keeps, AddsFrom, HasAllOf, arg_components};

use crate::met::{Met, none_met};
use crate::{Component, ComponentOf};
use component_parts::{Chosen, alias_chosen, chosen_place, form_chosen, is_chosen, places_count};
use relation_folds::visit::has_escaping_bound_vars;
use relation_terms::terms::parts::{member, member_count, parts_of, ty_parts};
use relation_terms::terms::{
    AliasTy, GenericArgKind, GenericArgs, Interner, OutOfMemory, Part, PartOf, Parts, PartsOf,
    Region, RegionKind, Ty, TyKind, Tys,
};

// Whether a part is met for the first time. A type and a constant are kept; of all else no account is kept.
#[inline(always)]
fn meet<I: Interner>(part: &PartOf<I>, visited: &mut Met<I>) -> Result<bool, OutOfMemory>
    ensures { IfOk result (λ new. Keeps ⟦<GenericArgKind<I::Key> as PartialEq>⟧.eq (kept_of part.now) new
        (keys_of visited.old) (keys_of visited.new)) }
{
    match part {
        Part::Ty(ty) => visited.insert(GenericArgKind::Ty(*ty), ()),
        Part::Const(constant) => visited.insert(GenericArgKind::Const(*constant), ()),
        _ => Ok(true),
    }
}

// Adds a component.
fn add<I: Interner>(
    out: &mut Vec<ComponentOf<I>>,
    component: ComponentOf<I>,
) -> Result<(), OutOfMemory>
    ensures ok { OnOk result (out.new.items ≡ out.old.items ++ component ∷ []) }
    ensures err { OnErr result (out.new.items ≡ out.old.items) }
{
    out.push(component)?;
    Ok(())
}

// Adds a region, if no binder binds it.
fn collect_region<I: Interner>(
    cx: &I,
    region: Region<I>,
    out: &mut Vec<ComponentOf<I>>,
) -> Result<(), OutOfMemory>
    requires { IsTrue (known ((I.meaning cx.now).region region)) }
    ensures some { AddsFrom (I.meaning cx.now) ((I.meaning cx.now).region region) out.old.items out.new.items }
    ensures all { OnOk result (HasAllOf (I.meaning cx.now) ((I.meaning cx.now).region region) out.new.items) }
{
    match cx.region_kind(&region) {
        RegionKind::ReBound(..) => Ok(()),
        _ => add::<I>(out, Component::Region(region)),
    }
}

// Adds the components of a part, but where it was met before.
#[cycle(collect)]
pub fn collect_part<I: Interner>(
    cx: &I,
    part: &PartOf<I>,
    out: &mut Vec<ComponentOf<I>>,
    visited: &mut Met<I>,
) -> Result<(), OutOfMemory>
    requires known { IsTrue (known (part_tree (I.meaning cx.now) part.now)) }
    requires settled { Ready I.meaning cx.now ⟦<GenericArgKind<I::Key> as PartialEq>⟧.eq part.now visited.old out.old }
    ensures some { AddsFrom (I.meaning cx.now) (part_tree (I.meaning cx.now) part.now) out.old.items out.new.items }
    ensures all { OnOk result (HasAllOf (I.meaning cx.now) (part_tree (I.meaning cx.now) part.now) out.new.items) }
    ensures meets { OnOk result (Meets (I.meaning cx.now) ⟦<GenericArgKind<I::Key> as PartialEq>⟧.eq
        (keys_of visited.old) (keys_of visited.new) out.new.items) }
{
    match part {
        Part::Region(region) => collect_region(cx, *region, out),
        Part::Ty(ty) => collect_type(cx, *ty, out, visited),
        _ => {
            let first = meet::<I>(part, visited)?;
            if !first {
                return Ok(());
            }
            collect_members(cx, &parts_of(cx, part), &Chosen::Every, out, visited)
        }
    }
}

// Adds the components of a type, but where it was met before. Types are most of what stands in types, and are given by
// value, so that what stands in a slice, a pointer or a reference is gone into in the same round, and takes no call.
#[cycle(collect)]
fn collect_type<I: Interner>(
    cx: &I,
    ty: Ty<I>,
    out: &mut Vec<ComponentOf<I>>,
    visited: &mut Met<I>,
) -> Result<(), OutOfMemory>
    requires known { IsTrue (known ((I.meaning cx.now).ty ty)) }
    requires settled { Settled (I.meaning cx.now) ⟦<GenericArgKind<I::Key> as PartialEq>⟧.eq
        (suc (size ((I.meaning cx.now).ty ty))) (keys_of visited.old) out.old.items }
    ensures some { AddsFrom (I.meaning cx.now) ((I.meaning cx.now).ty ty) out.old.items out.new.items }
    ensures all { OnOk result (HasAllOf (I.meaning cx.now) ((I.meaning cx.now).ty ty) out.new.items) }
    ensures meets { OnOk result (Meets (I.meaning cx.now) ⟦<GenericArgKind<I::Key> as PartialEq>⟧.eq
        (keys_of visited.old) (keys_of visited.new) out.new.items) }
{
    let first = meet::<I>(&Part::Ty(ty), visited)?;
    if !first {
        return Ok(());
    }
    collect_ty(cx, ty, out, visited)
}

// Adds the components of the types of a list.
#[cycle(collect)]
fn collect_tys<I: Interner>(
    cx: &I,
    tys: Tys<I>,
    out: &mut Vec<ComponentOf<I>>,
    visited: &mut Met<I>,
) -> Result<(), OutOfMemory>
    requires known { IsTrue (known ((I.meaning cx.now).tys tys)) }
    requires settled { Settled (I.meaning cx.now) ⟦<GenericArgKind<I::Key> as PartialEq>⟧.eq
        (size ((I.meaning cx.now).tys tys)) (keys_of visited.old) out.old.items }
    ensures some { AddsFrom (I.meaning cx.now) ((I.meaning cx.now).tys tys) out.old.items out.new.items }
    ensures all { OnOk result (HasAllOf (I.meaning cx.now) ((I.meaning cx.now).tys tys) out.new.items) }
    ensures meets { OnOk result (Meets (I.meaning cx.now) ⟦<GenericArgKind<I::Key> as PartialEq>⟧.eq
        (keys_of visited.old) (keys_of visited.new) out.new.items) }
{
    for ty in cx.tys(&tys) {
        collect_type(cx, *ty, out, visited)?;
    }
    Ok(())
}

// Adds the components of the members of a list that are chosen.
#[cycle(collect)]
fn collect_members<I: Interner>(
    cx: &I,
    parts: &PartsOf<I>,
    chosen: &Chosen<I::Id>,
    out: &mut Vec<ComponentOf<I>>,
    visited: &mut Met<I>,
) -> Result<(), OutOfMemory>
    requires known { IsTrue (known (parts_tree (I.meaning cx.now) parts.now)) }
    requires settled { Settled (I.meaning cx.now) ⟦<GenericArgKind<I::Key> as PartialEq>⟧.eq
        (size (parts_tree (I.meaning cx.now) parts.now)) (keys_of visited.old) out.old.items }
    ensures some { AddsSome (I.meaning cx.now)
        (components (meant (I.meaning cx.now) chosen.now) (parts_tree (I.meaning cx.now) parts.now))
        out.old.items out.new.items }
    ensures all { OnOk result (HasAll (I.meaning cx.now)
        (components (meant (I.meaning cx.now) chosen.now) (parts_tree (I.meaning cx.now) parts.now))
        out.new.items) }
    ensures meets { OnOk result (Meets (I.meaning cx.now) ⟦<GenericArgKind<I::Key> as PartialEq>⟧.eq
        (keys_of visited.old) (keys_of visited.new) out.new.items) }
{
    let count = member_count(cx, parts);
    for step in 0..places_count(chosen, count) {
        let i = chosen_place(chosen, parts, count, step);
        collect_member(cx, parts, chosen, count, i, out, visited)?;
    }
    Ok(())
}

// Adds the components of the member at a place of a list, if it is chosen.
#[cycle(collect)]
fn collect_member<I: Interner>(
    cx: &I,
    parts: &PartsOf<I>,
    chosen: &Chosen<I::Id>,
    members: usize,
    i: usize,
    out: &mut Vec<ComponentOf<I>>,
    visited: &mut Met<I>,
) -> Result<(), OutOfMemory>
    requires known { IsTrue (known (parts_tree (I.meaning cx.now) parts.now)) }
    requires members { members ≡ count (parts_tree (I.meaning cx.now) parts.now) }
    requires in_bounds { i < count (parts_tree (I.meaning cx.now) parts.now) }
    requires settled { Settled (I.meaning cx.now) ⟦<GenericArgKind<I::Key> as PartialEq>⟧.eq
        (size (parts_tree (I.meaning cx.now) parts.now)) (keys_of visited.old) out.old.items }
    ensures some { AddsSome (I.meaning cx.now)
        (of_member (meant (I.meaning cx.now) chosen.now) i (parts_tree (I.meaning cx.now) parts.now))
        out.old.items out.new.items }
    ensures all { OnOk result (HasAll (I.meaning cx.now)
        (of_member (meant (I.meaning cx.now) chosen.now) i (parts_tree (I.meaning cx.now) parts.now))
        out.new.items) }
    ensures meets { OnOk result (Meets (I.meaning cx.now) ⟦<GenericArgKind<I::Key> as PartialEq>⟧.eq
        (keys_of visited.old) (keys_of visited.new) out.new.items) }
{
    let part = member(cx, parts, i);
    if !is_chosen(cx, chosen, members, i, &part) {
        return Ok(());
    }
    collect_part(cx, &part, out, visited)
}

// Adds the components of a type, by its outermost form. The forms that stand most often are looked for here.
#[cycle(collect)]
fn collect_ty<I: Interner>(
    cx: &I,
    ty: Ty<I>,
    out: &mut Vec<ComponentOf<I>>,
    visited: &mut Met<I>,
) -> Result<(), OutOfMemory>
    requires known { IsTrue (known ((I.meaning cx.now).ty ty)) }
    requires settled { Settled (I.meaning cx.now) ⟦<GenericArgKind<I::Key> as PartialEq>⟧.eq
        (size ((I.meaning cx.now).ty ty)) (keys_of visited.old) out.old.items }
    ensures some { AddsFrom (I.meaning cx.now) ((I.meaning cx.now).ty ty) out.old.items out.new.items }
    ensures all { OnOk result (HasAllOf (I.meaning cx.now) ((I.meaning cx.now).ty ty) out.new.items) }
    ensures meets { OnOk result (Meets (I.meaning cx.now) ⟦<GenericArgKind<I::Key> as PartialEq>⟧.eq
        (keys_of visited.old) (keys_of visited.new) out.new.items) }
{
    match cx.ty_kind(&ty) {
        TyKind::Slice(element) => collect_type(cx, element, out, visited),
        TyKind::RawPtr(pointee, _) => collect_type(cx, pointee, out, visited),
        TyKind::Ref(region, pointee, _) => {
            collect_region(cx, region, out)?;
            collect_type(cx, pointee, out, visited)
        }
        TyKind::Tuple(members) => collect_tys(cx, members, out, visited),
        _ => collect_form(cx, ty, out, visited),
    }
}

// The same by any form. It stands apart, so that the recursion through the other takes little of the stack.
#[cycle(collect)]
#[inline(never)]
fn collect_form<I: Interner>(
    cx: &I,
    ty: Ty<I>,
    out: &mut Vec<ComponentOf<I>>,
    visited: &mut Met<I>,
) -> Result<(), OutOfMemory>
    requires known { IsTrue (known ((I.meaning cx.now).ty ty)) }
    requires settled { Settled (I.meaning cx.now) ⟦<GenericArgKind<I::Key> as PartialEq>⟧.eq
        (size ((I.meaning cx.now).ty ty)) (keys_of visited.old) out.old.items }
    ensures some { AddsFrom (I.meaning cx.now) ((I.meaning cx.now).ty ty) out.old.items out.new.items }
    ensures all { OnOk result (HasAllOf (I.meaning cx.now) ((I.meaning cx.now).ty ty) out.new.items) }
    ensures meets { OnOk result (Meets (I.meaning cx.now) ⟦<GenericArgKind<I::Key> as PartialEq>⟧.eq
        (keys_of visited.old) (keys_of visited.new) out.new.items) }
{
    let kind = cx.ty_kind(&ty);
    match &kind {
        TyKind::Param(param) => add::<I>(out, Component::Param(*param)),
        TyKind::Placeholder(placeholder) => add::<I>(out, Component::Placeholder(*placeholder)),
        TyKind::Infer(var) => add::<I>(out, Component::UnresolvedInferenceVariable(*var)),
        TyKind::Alias(alias) if has_escaping_bound_vars(cx, &ty) => collect_escaping(
            cx, alias, out,
        ),
        TyKind::Alias(alias) => add::<I>(out, Component::Alias(*alias)),
        _ => collect_members(cx, &ty_parts(&kind), &form_chosen(&kind), out, visited),
    }
}

// Adds the one component of an alias that a variable escapes, which holds those of its arguments.
#[cycle(collect)]
fn collect_escaping<I: Interner>(
    cx: &I,
    alias: &AliasTy<I::Key, I::Id>,
    out: &mut Vec<ComponentOf<I>>,
) -> Result<(), OutOfMemory>
    requires known { IsTrue (known ((I.meaning cx.now).args (alias.now).args)) }
    requires escapes { bound_var_escapes (kind_tree (I.meaning cx.now) (AliasForm alias.now)) ≡ true }
    ensures some { AddsSome (I.meaning cx.now) (kind_tree (I.meaning cx.now) (AliasForm alias.now) ∷ [])
        out.old.items out.new.items }
    ensures all { OnOk result (HasAll (I.meaning cx.now) (kind_tree (I.meaning cx.now) (AliasForm alias.now) ∷ [])
        out.new.items) }
{
    let mut inside = Vec::new(cx.alloc());
    collect_alias_args(cx, alias, &mut inside)?;
    add::<I>(out, Component::EscapingAlias(inside))
}

// Adds the components of the arguments of an alias, but of those that it is bivariant in.
#[cycle(collect)]
pub fn collect_alias_args<I: Interner>(
    cx: &I,
    alias: &AliasTy<I::Key, I::Id>,
    out: &mut Vec<ComponentOf<I>>,
) -> Result<(), OutOfMemory>
    requires { IsTrue (known ((I.meaning cx.now).args (alias.now).args)) }
    ensures some { let m = I.meaning cx.now in AddsSome m (arg_components m alias.now) out.old.items out.new.items }
    ensures all { let m = I.meaning cx.now in OnOk result (HasAll m (arg_components m alias.now) out.new.items) }
{
    let mut visited = none_met(cx);
    let chosen = alias_chosen(&alias.kind);
    collect_members(cx, &Parts::Args(alias.args), &chosen, out, &mut visited)
}
