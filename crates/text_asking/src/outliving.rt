//! Components of types, and what follows from assumptions, that are asked for, and how they are written.
ghost use Rattle.std.specs.Prelude.{◌≡◌, IsTrue, IfOk, IfSome};
ghost use Rattle.std.specs.List.{All};
ghost use Rattle.relation_terms.specs.Trees.{known};
ghost use Rattle.relation_terms.specs.Meaning.{Meaning, Extends, arg_tree};
ghost use Rattle.outlives_assumptions.specs.Assumptions.{IsKnown};
ghost use Rattle.variable_tables.specs.Tables.{IsLawful};
ghost use Rattle.text_asking.specs.Meets.{AllKnown};
ghost use Rattle.text_asking.specs.Asking.{AllReady, KnowsAnswer, KnowsRelated};
ghost use Rattle.text_asking.specs.Outlives.{KnowsComponent, KnowsComponents};

use crate::answer_text::{AnswerText, CUT_OFF, LONGEST};
use crate::question::{Answer, Outcome, Ready, Unasked, terms_of, type_of};
use crate::sized_keys::SizedKeys;
use relation_reference::context::RefCtxt;
use relation_terms::predicate::OutlivesPredicate;
use relation_terms::terms::{GenericArg, GenericArgKind, Interner, OutOfMemory};
use relation_tools::elaborate::{OutlivesAssumption, elaborate_outlives_assumptions};
use relation_tools::outlives::{Component, ComponentOf};
use std::alloc::{AllocError, Global};
use std::collections::HashSet;
use std::fmt::{self, Write};
use std::hash::Hash;
use text_reading::naming::Parts;
use text_terms::printing::{
    TextsOf, write_alias, write_arg, write_param, write_placeholder, write_region, write_variable,
};

// What stands between two assumptions.
const BETWEEN: &str = " | ";

// The components of a type.
pub(super) fn ask_components<I: SizedKeys>(cx: &I, terms: &Ready<I>, number: usize) -> Outcome<I>
    requires { AllReady (I.meaning cx.now) terms.now }
    ensures { let m = I.meaning cx.now in
        IfOk result (KnowsAnswer m (KnowsRelated m)) }
{
    let ty = type_of(terms, number)?;
    let found = cx.components(&ty)?;
    Ok(Answer::Components(found))
}

// Writes a component. One of an alias that a variable escapes is written as the components of the alias's arguments.
fn write_component<I: Interner, W: Write>(
    cx: &I,
    texts: &TextsOf<I>,
    component: &ComponentOf<I>,
    out: &mut W,
) -> fmt::Result
    requires { KnowsComponent (I.meaning cx.now) component.now }
{
    match component {
        Component::Region(region) => write_region(cx, texts, region, out),
        Component::Param(param) => write_param::<I, W>(texts, param, out),
        Component::Placeholder(placeholder) => write_placeholder::<I, W>(texts, placeholder, out),
        Component::UnresolvedInferenceVariable(variable) => write_variable(*variable, out),
        Component::Alias(alias) => write_alias(cx, texts, alias, out),
        Component::EscapingAlias(inside) => {
            out.write_str("escaping[")?;
            for (place, inner) in inside.iter().enumerate() {
                if place > 0 {
                    out.write_str(", ")?;
                }
                write_component(cx, texts, inner, out)?;
            }
            out.write_str("]")
        }
    }
}

// Writes the components of a type, or that it has none.
pub(super) fn write_components<I: Interner, W: Write>(
    cx: &I,
    texts: &TextsOf<I>,
    components: &[ComponentOf<I>],
    out: &mut W,
) -> fmt::Result
    requires { KnowsComponents (I.meaning cx.now) components.now }
{
    if components.is_empty() {
        return out.write_str("none");
    }
    for (place, component) in components.iter().enumerate() {
        if place > 0 {
            out.write_str(", ")?;
        }
        write_component(cx, texts, component, out)?;
    }
    Ok(())
}

// That a term outlives a region, if it is one.
fn assumption_of<I: Interner>(
    term: GenericArg<I>,
    region: GenericArg<I>,
) -> Option<OutlivesAssumption<I>>
    ensures { (m : Meaning I.Key I.Id I.Name) → IsTrue (known (arg_tree m term)) →
        IsTrue (known (arg_tree m region)) → IfSome result (IsKnown m) }
{
    match region {
        GenericArgKind::Lifetime(region) => Some(OutlivesPredicate(term, region)),
        _ => None,
    }
}

// The assumptions that terms outlive the regions at their places.
pub(super) fn assumptions_of<I: Interner>(
    alloc: Global,
    terms: &[GenericArg<I>],
    regions: &[GenericArg<I>],
) -> Result<Vec<OutlivesAssumption<I>>, OutOfMemory>
    ensures { (m : Meaning I.Key I.Id I.Name) → AllKnown m terms.now → AllKnown m regions.now →
        IfOk result (λ all. All (IsKnown m) all.items) }
{
    let mut all = Vec::new(alloc);
    for place in 0..terms.len().min(regions.len()) {
        let Some(assumption) = assumption_of::<I>(terms[place], regions[place]) else {
            return Err(OutOfMemory);
        };
        all.push(assumption)?;
    }
    Ok(all)
}

// The members of a set, in a list.
fn listed<T: Eq + Hash + Drop>(alloc: Global, set: HashSet<T>) -> Result<Vec<T>, AllocError>
    ensures { IfOk result (λ all. all.items ≡ set.keys) }
{
    set.into_iter().collect(alloc)
}

// What follows from assumptions, in no order.
fn followed<I: Interner>(
    cx: &mut I,
    assumptions: &[OutlivesAssumption<I>],
) -> Result<Vec<OutlivesAssumption<I>>, OutOfMemory>
    requires { All (IsKnown (I.meaning cx.old)) assumptions.now }
    ensures grown { Extends (I.meaning cx.old) (I.meaning cx.new) }
    ensures sure { IfOk result (λ all. All (IsKnown (I.meaning cx.new)) all.items) }
{
    let set = elaborate_outlives_assumptions(cx, assumptions)?;
    Ok(listed(cx.alloc(), set)?)
}

// What follows from the assumptions that terms outlive regions.
pub(super) fn ask_assumptions<I: Interner>(
    ctx: &mut RefCtxt<I>,
    terms: &Ready<I>,
    assumed: Parts,
    regions: Parts,
) -> Outcome<I>
    requires lawful { IsLawful (I.meaning ctx.old.interner) ctx.old.inner }
    requires ready { AllReady (I.meaning ctx.old.interner) terms.now }
    ensures lawful { IsLawful (I.meaning ctx.new.interner) ctx.new.inner }
    ensures grown { Extends (I.meaning ctx.old.interner) (I.meaning ctx.new.interner) }
    ensures known { let m = I.meaning ctx.new.interner in
        IfOk result (KnowsAnswer m (KnowsRelated m)) }
{
    let alloc = ctx.interner.alloc();
    let assumed = terms_of(alloc, terms, assumed)?;
    let regions = terms_of(alloc, terms, regions)?;
    let Ok(assumptions) = assumptions_of::<I>(alloc, &assumed, &regions) else {
        return Err(Unasked::Memory);
    };
    match followed(&mut ctx.interner, &assumptions) {
        Ok(all) => Ok(Answer::Assumed(all)),
        Err(_) => Err(Unasked::Memory),
    }
}

// Writes an assumption: `T: 'a`.
fn write_assumption<I: Interner, W: Write>(
    cx: &I,
    texts: &TextsOf<I>,
    assumption: &OutlivesAssumption<I>,
    out: &mut W,
) -> fmt::Result
    requires { IsKnown (I.meaning cx.now) assumption.now }
{
    write_arg(cx, texts, &assumption.0, out)?;
    out.write_str(": ")?;
    write_region(cx, texts, &assumption.1, out)
}

// The texts of assumptions that are together no longer than an answer, in order, and the front of the first for which
// there was no room.
fn assumption_texts<I: Interner>(
    cx: &I,
    texts: &TextsOf<I>,
    assumptions: &[OutlivesAssumption<I>],
) -> Result<(Vec<String>, Option<String>), fmt::Error>
    requires { All (IsKnown (I.meaning cx.now)) assumptions.now }
{
    let mut lines = Vec::new(cx.alloc());
    let mut room = LONGEST;
    for assumption in assumptions {
        let mut line = AnswerText::with_room(cx.alloc(), room);
        let written = write_assumption(cx, texts, assumption, &mut line);
        if line.cut {
            lines.sort_unstable();
            return Ok((lines, Some(line.text)));
        }
        written?;
        room = line.room.saturating_sub(BETWEEN.len());
        if lines.push(line.text).is_err() {
            return Err(fmt::Error);
        }
    }
    lines.sort_unstable();
    Ok((lines, None))
}

// Writes assumptions, in the order of their texts. Where they are longer than an answer, those that were found first
// are written, up to the one at which it is cut off.
pub(super) fn write_assumptions<I: Interner, W: Write>(
    cx: &I,
    texts: &TextsOf<I>,
    assumptions: &[OutlivesAssumption<I>],
    out: &mut W,
) -> fmt::Result
    requires { All (IsKnown (I.meaning cx.now)) assumptions.now }
{
    let (lines, front) = assumption_texts(cx, texts, assumptions)?;
    for (place, line) in lines.iter().enumerate() {
        if place > 0 {
            out.write_str(BETWEEN)?;
        }
        out.write_str(line.as_str())?;
    }
    let Some(front) = front else {
        return Ok(());
    };
    if !lines.is_empty() {
        out.write_str(BETWEEN)?;
    }
    out.write_str(front.as_str())?;
    out.write_str(CUT_OFF)
}
