//! What a predicate implies, pushed one by one as it is made.
ghost use Rattle.std.specs.Prelude.{◌∷◌, [], false, IsTrue, IsSome};
ghost use Rattle.std.specs.List.{All, filter_map};
ghost use Rattle.relation_terms.specs.Trees.{known};
ghost use Rattle.relation_terms.specs.Owned.{bound_tree};
ghost use Rattle.relation_terms.specs.Clauses.{trait_clause_tree};
ghost use Rattle.outlives_assumptions.specs.Assuming.{IsKnownComponent};
ghost use Rattle.relation_statements.specs.Children.{children, effect_of, mode_of};
ghost use Rattle.relation_statements.specs.Statements.{statements, component_implied, type_outlives_tree};
ghost use Rattle.elaboration_worklist.specs.Kept.{IsKept, Pushed};
ghost use Rattle.relation_statements.specs.PushedChildren.{PushedChildren};

use crate::clauses::{effect_clause, is_bound, outlives_clause};
use crate::instantiate::instantiate_supertrait;
use crate::stated::{bound_at, implies_nothing, stated_at, stated_count};
use crate::trait_clauses::BoundTraitRef;
use elaboration_worklist::{ElabFault, Elaboratable, WorklistOf, push_new};
use outlives::{ComponentOf, components_of};
use outlives_assumptions::assumed_argument;
use relation_terms::predicate::{ClauseKind, OutlivesPredicate, TraitPredicate};
use relation_terms::terms::{Binder, BoundConstness, BoundVars, Interner, Region, Ty};

/// A trait clause, under its binder.
type BoundTraitPredicate<I> = Binder<
    <I as relation_terms::terms::Keys>::Key,
    TraitPredicate<<I as relation_terms::terms::Keys>::Key, <I as relation_terms::terms::Keys>::Id>,
>;

// Pushes what a trait clause implies: what the trait states, for the clause's arguments.
fn push_stated<I: Interner, O: Elaboratable<I>>(
    cx: &mut I,
    list: &mut WorklistOf<I, O>,
    mode: (bool, bool),
    obligation: &O,
    parent: &BoundTraitPredicate<I>,
) -> Result<(), ElabFault>
    requires known { IsTrue (known (trait_clause_tree (I.meaning cx.old) parent.now)) }
    requires kept { IsKept O.tree (I.meaning cx.old) list.old }
    ensures { let m = I.meaning cx.old in Pushed O.tree m (I.meaning cx.new)
        (children (statements m) (mode_of mode.0 mode.1) (trait_clause_tree m parent.now)) list.old list.new result }
{
    let (only_self, sized) = mode;
    if implies_nothing(cx, &parent.value, sized) {
        return Ok(());
    }
    let trait_ref = Binder {
        value: parent.value.trait_ref,
        bound_vars: parent.bound_vars,
    };
    let count = stated_count(cx, &trait_ref.value.def_id, only_self);
    for index in 0..count {
        let (clause, span) = stated_at(cx, &trait_ref.value.def_id, only_self, index);
        let clause = instantiate_supertrait(cx, &clause, &trait_ref)?;
        let child = obligation.child_with_derived_cause(clause, span, *parent, index);
        match push_new(cx, list, child) {
            Ok(()) => {}
            Err(fault) => return Err(fault),
        }
    }
    Ok(())
}

// Pushes what a clause on const contexts implies: the const bounds of its trait, for the clause's arguments.
fn push_bounds<I: Interner, O: Elaboratable<I>>(
    cx: &mut I,
    list: &mut WorklistOf<I, O>,
    obligation: &O,
    trait_ref: &BoundTraitRef<I>,
    constness: BoundConstness,
) -> Result<(), ElabFault>
    requires known { IsTrue (known (bound_tree (I.meaning cx.old) trait_ref.now)) }
    requires kept { IsKept O.tree (I.meaning cx.old) list.old }
    ensures { let m = I.meaning cx.old in Pushed O.tree m (I.meaning cx.new)
        (children (statements m) (mode_of false false) (effect_of constness (bound_tree m trait_ref.now)))
        list.old list.new result }
{
    let count = cx
        .explicit_implied_const_bounds(&trait_ref.value.def_id)
        .len();
    for index in 0..count {
        let bound = bound_at(cx, &trait_ref.value.def_id, index);
        let clause = effect_clause(cx, &bound, constness)?;
        let clause = instantiate_supertrait(cx, &clause, trait_ref)?;
        match push_new(cx, list, obligation.child(clause)) {
            Ok(()) => {}
            Err(fault) => return Err(fault),
        }
    }
    Ok(())
}

// Pushes that a component outlives a region, if it is a predicate of its own.
fn push_component<I: Interner, O: Elaboratable<I>>(
    cx: &mut I,
    list: &mut WorklistOf<I, O>,
    obligation: &O,
    component: &ComponentOf<I>,
    region: &Region<I>,
    bound_vars: &BoundVars<I>,
) -> Result<(), ElabFault>
    requires component { IsKnownComponent (I.meaning cx.old) component.now }
    requires region { IsTrue (known ((I.meaning cx.old).region region.now)) }
    requires bound_vars { IsSome ((I.meaning cx.old).bound_vars bound_vars.now) }
    requires kept { IsKept O.tree (I.meaning cx.old) list.old }
    ensures { let m = I.meaning cx.old in Pushed O.tree m (I.meaning cx.new)
        (filter_map (component_implied m bound_vars.now region.now) (component.now ∷ [])) list.old list.new result }
{
    let Some(arg) = assumed_argument(cx, component)? else {
        return Ok(());
    };
    let Some(clause) = outlives_clause(cx, arg, *region, *bound_vars)? else {
        return Ok(());
    };
    push_new(cx, list, obligation.child(clause))
}

// Pushes the same of each component of a list.
fn push_components<I: Interner, O: Elaboratable<I>>(
    cx: &mut I,
    list: &mut WorklistOf<I, O>,
    obligation: &O,
    components: &[ComponentOf<I>],
    region: &Region<I>,
    bound_vars: &BoundVars<I>,
) -> Result<(), ElabFault>
    requires components { All (IsKnownComponent (I.meaning cx.old)) components.now }
    requires region { IsTrue (known ((I.meaning cx.old).region region.now)) }
    requires bound_vars { IsSome ((I.meaning cx.old).bound_vars bound_vars.now) }
    requires kept { IsKept O.tree (I.meaning cx.old) list.old }
    ensures { let m = I.meaning cx.old in Pushed O.tree m (I.meaning cx.new)
        (filter_map (component_implied m bound_vars.now region.now) components.now) list.old list.new result }
{
    for component in components {
        match push_component(cx, list, obligation, component, region, bound_vars) {
            Ok(()) => {}
            Err(fault) => return Err(fault),
        }
    }
    Ok(())
}

// Pushes what follows for the components of a type that outlives a region.
fn push_outlives<I: Interner, O: Elaboratable<I>>(
    cx: &mut I,
    list: &mut WorklistOf<I, O>,
    obligation: &O,
    outlives: &OutlivesPredicate<I::Key, Ty<I>>,
    bound_vars: &BoundVars<I>,
) -> Result<(), ElabFault>
    requires ty { IsTrue (known ((I.meaning cx.old).ty (outlives.now).0)) }
    requires region { IsTrue (known ((I.meaning cx.old).region (outlives.now).1)) }
    requires bound_vars { IsSome ((I.meaning cx.old).bound_vars bound_vars.now) }
    requires kept { IsKept O.tree (I.meaning cx.old) list.old }
    ensures { let m = I.meaning cx.old in Pushed O.tree m (I.meaning cx.new)
        (children (statements m) (mode_of false false) (type_outlives_tree m bound_vars.now outlives.now))
        list.old list.new result }
{
    let OutlivesPredicate(ty, region) = outlives;
    if is_bound(cx, region) {
        return Ok(());
    }
    let components = components_of(cx, ty)?;
    push_components(cx, list, obligation, &components, region, bound_vars)
}

/// Pushes all that a predicate implies.
pub fn push_children<I: Interner, O: Elaboratable<I>>(
    cx: &mut I,
    list: &mut WorklistOf<I, O>,
    mode: (bool, bool),
    obligation: &O,
) -> Result<(), ElabFault>
    requires known { IsTrue (known (O.tree (I.meaning cx.old) obligation.now)) }
    requires kept { IsKept O.tree (I.meaning cx.old) list.old }
    ensures { PushedChildren I.meaning O.tree cx.old cx.new mode.0 mode.1 obligation.now list.old list.new result }
{
    let predicate = obligation.predicate(cx);
    let Some(clause) = cx.predicate_as_clause(&predicate) else {
        return Ok(());
    };
    let Binder { value, bound_vars } = cx.clause_kind(&clause);
    match value {
        ClauseKind::Trait(value) => {
            push_stated(cx, list, mode, obligation, &Binder { value, bound_vars })
        }
        ClauseKind::HostEffect(value) => {
            let constness = value.constness;
            let value = value.trait_ref;
            push_bounds(
                cx,
                list,
                obligation,
                &Binder { value, bound_vars },
                constness,
            )
        }
        ClauseKind::TypeOutlives(outlives) => {
            push_outlives(cx, list, obligation, &outlives, &bound_vars)
        }
        _ => Ok(()),
    }
}
