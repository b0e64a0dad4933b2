//! How a set of assumptions gains one and what follows from it.
ghost use Rattle.std.specs.Prelude.{◌≡◌, ◌∷◌, [], IsTrue, IfOk, OnOk, IfSome, Some};
ghost use Rattle.std.specs.List.{All, filter_map};
ghost use Rattle.std.specs.Option.{option_map};
ghost use Rattle.relation_terms.specs.Trees.{known};
ghost use Rattle.relation_terms.specs.Meaning.{Extends, arg_tree, kind_tree};
ghost use Rattle.outlives_assumptions.specs.Assumptions.{IsKnown, assumed};
ghost use Rattle.outlives_assumptions.specs.Assuming.{argument_of, pair_of, IsArgumentOf, IsKnownComponent, Gains, Assumes};
ghost use Rattle.outlives.specs.declared.Component.{Region as RegionComponent};

use crate::OutlivesAssumption;
use outlives::{Component, ComponentOf, components_of};
use relation_terms::predicate::OutlivesPredicate;
use relation_terms::terms::{
    GenericArg, GenericArgKind, Interner, OutOfMemory, Region, RegionKind, TyForm, TyKind,
};
use std::collections::HashSet;

// A region as an argument, if no binder binds it.
fn unbound_region<I: Interner>(cx: &I, region: &Region<I>) -> Option<GenericArg<I>>
    requires { IsTrue (known ((I.meaning cx.now).region region.now)) }
    ensures { option_map (arg_tree (I.meaning cx.now)) result ≡
        argument_of (I.meaning cx.now) (RegionComponent region.now) }
{
    match cx.region_kind(region) {
        RegionKind::ReBound(..) => None,
        _ => Some(GenericArgKind::Lifetime(*region)),
    }
}

// The type of a form, as an argument.
fn ty_arg<I: Interner>(cx: &mut I, kind: TyForm<I>) -> Result<Option<GenericArg<I>>, OutOfMemory>
    requires { IsTrue (known (kind_tree (I.meaning cx.old) kind)) }
    ensures grown { Extends (I.meaning cx.old) (I.meaning cx.new) }
    ensures sure { IfOk result (λ o. IfSome o (λ a. IsTrue (known (arg_tree (I.meaning cx.new) a)))) }
    ensures is { IfOk result (λ o. option_map (arg_tree (I.meaning cx.new)) o ≡
        Some (kind_tree (I.meaning cx.old) kind)) }
{
    Ok(Some(GenericArgKind::Ty(cx.mk_ty(kind)?)))
}

/// The argument that a component is, if it is an assumption of its own that this outlives a region: a region that no
/// binder binds, a parameter, a placeholder, and an alias that no variable escapes.
///
/// Answers `OutOfMemory` where a growth was refused; all keys keep their meanings.
pub fn assumed_argument<I: Interner>(
    cx: &mut I,
    component: &ComponentOf<I>,
) -> Result<Option<GenericArg<I>>, OutOfMemory>
    requires { IsKnownComponent (I.meaning cx.old) component.now }
    ensures grown { Extends (I.meaning cx.old) (I.meaning cx.new) }
    ensures sure { IfOk result (λ o. IfSome o (λ a. IsTrue (known (arg_tree (I.meaning cx.new) a)))) }
    ensures is { IfOk result (λ o. IsArgumentOf (I.meaning cx.old) (I.meaning cx.new) component.now o) }
{
    match component {
        Component::Region(region) => Ok(unbound_region(cx, region)),
        Component::Param(param) => ty_arg(cx, TyKind::Param(*param)),
        Component::Placeholder(placeholder) => ty_arg(cx, TyKind::Placeholder(*placeholder)),
        Component::Alias(alias) => ty_arg(cx, TyKind::Alias(*alias)),
        Component::UnresolvedInferenceVariable(_) => Ok(None),
        Component::EscapingAlias(_) => Ok(None),
    }
}

// Adds an assumption.
fn assume<I: Interner>(
    _cx: &I,
    assumption: OutlivesAssumption<I>,
    collected: &mut HashSet<OutlivesAssumption<I>>,
) -> Result<(), OutOfMemory>
    requires known { IsKnown (I.meaning _cx.now) assumption }
    requires sure { All (IsKnown (I.meaning _cx.now)) collected.old.keys }
    ensures { let m = I.meaning _cx.now in
        OnOk result (Gains m m collected.old.keys collected.new.keys (assumed m assumption ∷ [])) }
{
    collected.insert(assumption)?;
    Ok(())
}

// Adds that a component outlives a region, if it is an assumption of its own.
fn add_component<I: Interner>(
    cx: &mut I,
    component: &ComponentOf<I>,
    region: &Region<I>,
    collected: &mut HashSet<OutlivesAssumption<I>>,
) -> Result<(), OutOfMemory>
    requires component { IsKnownComponent (I.meaning cx.old) component.now }
    requires region { IsTrue (known ((I.meaning cx.old).region region.now)) }
    requires sure { All (IsKnown (I.meaning cx.old)) collected.old.keys }
    ensures grown { Extends (I.meaning cx.old) (I.meaning cx.new) }
    ensures gains { let m = I.meaning cx.old in
        OnOk result (Gains m (I.meaning cx.new) collected.old.keys collected.new.keys
        (filter_map (pair_of m (m.region region.now)) (component.now ∷ []))) }
{
    let found = assumed_argument(cx, component)?;
    match found {
        Some(arg) => assume(cx, OutlivesPredicate(arg, *region), collected),
        None => Ok(()),
    }
}

// Adds the same of each component of a list.
fn add_components<I: Interner>(
    cx: &mut I,
    components: &[ComponentOf<I>],
    region: &Region<I>,
    collected: &mut HashSet<OutlivesAssumption<I>>,
) -> Result<(), OutOfMemory>
    requires components { All (IsKnownComponent (I.meaning cx.old)) components.now }
    requires region { IsTrue (known ((I.meaning cx.old).region region.now)) }
    requires sure { All (IsKnown (I.meaning cx.old)) collected.old.keys }
    ensures grown { Extends (I.meaning cx.old) (I.meaning cx.new) }
    ensures gains { let m = I.meaning cx.old in
        OnOk result (Gains m (I.meaning cx.new) collected.old.keys collected.new.keys
        (filter_map (pair_of m (m.region region.now)) components.now)) }
{
    for component in components {
        add_component(cx, component, region, collected)?;
    }
    Ok(())
}

/// Adds an assumption, and for a type the same of its components.
pub fn add_assumption<I: Interner>(
    cx: &mut I,
    assumption: &OutlivesAssumption<I>,
    collected: &mut HashSet<OutlivesAssumption<I>>,
) -> Result<(), OutOfMemory>
    requires known { IsKnown (I.meaning cx.old) assumption.now }
    requires sure { All (IsKnown (I.meaning cx.old)) collected.old.keys }
    ensures grown { Extends (I.meaning cx.old) (I.meaning cx.new) }
    ensures gains { OnOk result (Assumes I.meaning cx.old cx.new collected.old.keys collected.new.keys assumption.now) }
{
    assume(cx, *assumption, collected)?;
    match &assumption.0 {
        GenericArgKind::Ty(ty) => {
            let components = components_of(cx, ty)?;
            add_components(cx, &components, &assumption.1, collected)
        }
        _ => Ok(()),
    }
}
