//! Which variables of a binder are used in its body: one recursion over the parts of all forms.
//!
//! A part that has a key is gone into once at each depth, so this takes as many steps as there are different parts.
ghost use Rattle.std.specs.Prelude.{◌≡◌, IsTrue, IfOk, OnOk, cond, nat_eq, None, Some};
ghost use Rattle.std.specs.Bool.{OnTrue};
ghost use Rattle.relation_terms.specs.Trees.{known, IsList};
ghost use Rattle.relation_terms.specs.Parts.{part_tree, parts_tree};
ghost use Rattle.relation_terms.specs.Fields.{field_tree, fields_tree};
ghost use Rattle.relation_terms.specs.Predicates.{predicate_kind_tree};
ghost use Rattle.relation_folds.specs.Visits.{in_turns};
ghost use Rattle.anonymize.specs.Anonymous.{uses, used_vars as the_used_vars};
ghost use Rattle.anonymize.specs.UsedParts.{AllIn, Remembered, AreRemembered, Collects, TellsVar};

use crate::used::{UsedVar, add};
use relation_folds::fold::{Place, depth_inside, place_of};
use relation_folds::visit::has_escaping_bound_vars;
use relation_terms::predicate::PredicateKind;
use relation_terms::terms::parts::{
    Field, Fields, FieldsOf, member, member_count, parts_of, predicate_fields, visited_place,
};
use relation_terms::terms::{
    Const, ConstKind, DebruijnIndex, Interner, Keys, OutOfMemory, Part, PartOf, Parts, PartsOf,
    Region, RegionKind, Ty, TyKind,
};
use std::collections::HashSet;

// The parts, each at a depth, of which all variables were collected.
type Met<I> = HashSet<Place<<I as Keys>::Key>>;

// The variable, if the binder around the whole binds it, `depth` binders further in.
fn bound_here(index: &DebruijnIndex, depth: u128, var: UsedVar) -> Option<UsedVar>
    ensures { result ≡ cond (nat_eq (index.now).0 depth) (Some var) None }
{
    if u128::from(index.0) == depth {
        Some(var)
    } else {
        None
    }
}

// The variable that a type is, if the binder around the whole binds it.
fn ty_var<I: Interner>(cx: &I, ty: &Ty<I>, depth: u128) -> Option<UsedVar>
    requires { IsTrue (known ((I.meaning cx.now).ty ty.now)) }
    ensures { TellsVar depth ((I.meaning cx.now).ty ty.now) result }
{
    match cx.ty_kind(ty) {
        TyKind::Bound(index, bound) => bound_here(&index, depth, UsedVar::Ty(bound.var.0)),
        _ => None,
    }
}

// The same of a region.
fn region_var<I: Interner>(cx: &I, region: &Region<I>, depth: u128) -> Option<UsedVar>
    requires { IsTrue (known ((I.meaning cx.now).region region.now)) }
    ensures { TellsVar depth ((I.meaning cx.now).region region.now) result }
{
    match cx.region_kind(region) {
        RegionKind::ReBound(index, bound) => {
            bound_here(&index, depth, UsedVar::Region(bound.var.0))
        }
        _ => None,
    }
}

// The same of a constant.
fn const_var<I: Interner>(cx: &I, constant: &Const<I>, depth: u128) -> Option<UsedVar>
    requires { IsTrue (known ((I.meaning cx.now).const_ constant.now)) }
    ensures { TellsVar depth ((I.meaning cx.now).const_ constant.now) result }
{
    match cx.const_kind(constant) {
        ConstKind::Bound(index, bound) => bound_here(&index, depth, UsedVar::Const(bound.var.0)),
        _ => None,
    }
}

// The same of any part. All other parts are no variables.
fn part_var<I: Interner>(cx: &I, part: &PartOf<I>, depth: u128) -> Option<UsedVar>
    requires { IsTrue (known (part_tree (I.meaning cx.now) part.now)) }
    ensures { TellsVar depth (part_tree (I.meaning cx.now) part.now) result }
{
    match part {
        Part::Region(region) => region_var(cx, region, depth),
        Part::Ty(ty) => ty_var(cx, ty, depth),
        Part::Const(constant) => const_var(cx, constant, depth),
        _ => None,
    }
}

// Whether all variables of a part at this depth were collected already.
fn was_met<I: Interner>(
    _cx: &I,
    part: &PartOf<I>,
    depth: u128,
    _vars: &[UsedVar],
    met: &Met<I>,
) -> bool
    requires known { IsTrue (known (part_tree (I.meaning _cx.now) part.now)) }
    requires remembered { Remembered (I.meaning _cx.now) _vars.now ⟦<Place<I::Key> as PartialEq>⟧.eq met.now.keys }
    ensures { OnTrue result (AllIn _vars.now (uses depth (part_tree (I.meaning _cx.now) part.now))) }
{
    match place_of(part, depth) {
        Some(place) => met.contains(&place),
        None => false,
    }
}

// Keeps a part at a depth, where all its variables were collected.
fn keep_collected<I: Interner>(
    _cx: &I,
    part: &PartOf<I>,
    depth: u128,
    _vars: &[UsedVar],
    met: &mut Met<I>,
) -> Result<(), OutOfMemory>
    requires known { IsTrue (known (part_tree (I.meaning _cx.now) part.now)) }
    requires collected { AllIn _vars.now (uses depth (part_tree (I.meaning _cx.now) part.now)) }
    requires remembered { Remembered (I.meaning _cx.now) _vars.now ⟦<Place<I::Key> as PartialEq>⟧.eq met.old.keys }
    ensures { OnOk result (Remembered (I.meaning _cx.now) _vars.now ⟦<Place<I::Key> as PartialEq>⟧.eq met.new.keys) }
{
    if let Some(place) = place_of(part, depth) {
        met.insert(place)?;
    }
    Ok(())
}

// Adds the variables that are used in a part which stands under `depth` binders, but where it was met there before.
#[cycle(collect)]
fn collect_part<I: Interner>(
    cx: &I,
    part: &PartOf<I>,
    depth: u128,
    vars: &mut Vec<UsedVar>,
    met: &mut Met<I>,
) -> Result<(), OutOfMemory>
    requires known { IsTrue (known (part_tree (I.meaning cx.now) part.now)) }
    requires remembered { AreRemembered (I.meaning cx.now) vars.old ⟦<Place<I::Key> as PartialEq>⟧.eq met.old }
    ensures collects { OnOk result (Collects depth (part_tree (I.meaning cx.now) part.now) vars.old vars.new) }
    ensures kept { OnOk result (AreRemembered (I.meaning cx.now) vars.new ⟦<Place<I::Key> as PartialEq>⟧.eq met.new) }
{
    if was_met(cx, part, depth, vars, met) {
        return Ok(());
    }
    collect_new(cx, part, depth, vars, met)?;
    keep_collected(cx, part, depth, vars, met)
}

// The same of a part that is met for the first time: a variable, or else what its own parts use.
#[cycle(collect)]
fn collect_new<I: Interner>(
    cx: &I,
    part: &PartOf<I>,
    depth: u128,
    vars: &mut Vec<UsedVar>,
    met: &mut Met<I>,
) -> Result<(), OutOfMemory>
    requires known { IsTrue (known (part_tree (I.meaning cx.now) part.now)) }
    requires remembered { AreRemembered (I.meaning cx.now) vars.old ⟦<Place<I::Key> as PartialEq>⟧.eq met.old }
    ensures collects { OnOk result (Collects depth (part_tree (I.meaning cx.now) part.now) vars.old vars.new) }
    ensures kept { OnOk result (AreRemembered (I.meaning cx.now) vars.new ⟦<Place<I::Key> as PartialEq>⟧.eq met.new) }
{
    match part_var(cx, part, depth) {
        Some(var) => add(vars, var),
        None => {
            let inside = depth_inside(part, depth)?;
            collect_list(cx, &parts_of(cx, part), inside, vars, met)
        }
    }
}

// Adds the variables that are used in the members of a list, in the list's order.
#[cycle(collect)]
fn collect_list<I: Interner>(
    cx: &I,
    parts: &PartsOf<I>,
    depth: u128,
    vars: &mut Vec<UsedVar>,
    met: &mut Met<I>,
) -> Result<(), OutOfMemory>
    requires known { IsTrue (known (parts_tree (I.meaning cx.now) parts.now)) }
    requires remembered { AreRemembered (I.meaning cx.now) vars.old ⟦<Place<I::Key> as PartialEq>⟧.eq met.old }
    ensures is_list { IsList (parts_tree (I.meaning cx.now) parts.now) }
    ensures collects { OnOk result (Collects depth (in_turns (I.meaning cx.now) parts.now) vars.old vars.new) }
    ensures kept { OnOk result (AreRemembered (I.meaning cx.now) vars.new ⟦<Place<I::Key> as PartialEq>⟧.eq met.new) }
{
    let count = member_count(cx, parts);
    for step in 0..count {
        let part = member(cx, parts, visited_place(parts, count, step));
        collect_part(cx, &part, depth, vars, met)?;
    }
    Ok(())
}

// Adds the variables that are used in a part of a predicate.
fn collect_field<I: Interner>(
    cx: &I,
    field: &Field<I::Key, I::Id>,
    vars: &mut Vec<UsedVar>,
    met: &mut Met<I>,
) -> Result<(), OutOfMemory>
    requires known { IsTrue (known (field_tree (I.meaning cx.now) field.now)) }
    requires remembered { AreRemembered (I.meaning cx.now) vars.old ⟦<Place<I::Key> as PartialEq>⟧.eq met.old }
    ensures collects { OnOk result (Collects 0 (field_tree (I.meaning cx.now) field.now) vars.old vars.new) }
    ensures kept { OnOk result (AreRemembered (I.meaning cx.now) vars.new ⟦<Place<I::Key> as PartialEq>⟧.eq met.new) }
{
    match field {
        Field::Region(region) => collect_part(cx, &Part::Region(*region), 0, vars, met),
        Field::Ty(ty) => collect_part(cx, &Part::Ty(*ty), 0, vars, met),
        Field::Const(constant) => collect_part(cx, &Part::Const(*constant), 0, vars, met),
        Field::TraitRef(of) => collect_list(cx, &Parts::Args(of.args), 0, vars, met),
        Field::AliasTerm(of) => collect_list(cx, &Parts::Args(of.args), 0, vars, met),
    }
}

// Adds the variables that are used in the parts of a predicate, in order.
fn collect_fields<I: Interner>(
    cx: &I,
    fields: &FieldsOf<I>,
    vars: &mut Vec<UsedVar>,
    met: &mut Met<I>,
) -> Result<(), OutOfMemory>
    requires known { IsTrue (known (fields_tree (I.meaning cx.now) fields.now)) }
    requires remembered { AreRemembered (I.meaning cx.now) vars.old ⟦<Place<I::Key> as PartialEq>⟧.eq met.old }
    ensures { OnOk result (Collects 0 (fields_tree (I.meaning cx.now) fields.now) vars.old vars.new) }
{
    match fields {
        Fields::Empty => Ok(()),
        Fields::One(field) => collect_field(cx, field, vars, met),
        Fields::Two(first, second) => {
            collect_field(cx, first, vars, met)?;
            collect_field(cx, second, vars, met)
        }
    }
}

/// The variables of the binder around the form of a predicate that are used in it, each once, as a visit first comes to
/// them. Where the flags of its terms tell that there are none, nothing is gone into.
pub fn used_vars<I: Interner>(
    cx: &I,
    body: &PredicateKind<I::Key, I::Id, I::Name>,
) -> Result<Vec<UsedVar>, OutOfMemory>
    requires { IsTrue (known (predicate_kind_tree (I.meaning cx.now) body.now)) }
    ensures { IfOk result (λ list. list.items ≡ the_used_vars (predicate_kind_tree (I.meaning cx.now) body.now)) }
{
    let mut vars = Vec::new(cx.alloc());
    if has_escaping_bound_vars(cx, body) {
        let mut met = HashSet::new(cx.alloc());
        collect_fields(cx, &predicate_fields(body), &mut vars, &mut met)?;
    }
    Ok(vars)
}
