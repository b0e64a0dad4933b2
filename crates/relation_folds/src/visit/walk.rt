//! The walk of a visitor over a term: one loop over the parts of all forms.
//!
//! It stands beside the visitors, which never call it: one proof serves all of them.
//! The part of a binder stands one binder deeper, and all others as deep as the term that they are parts of.
ghost use Rattle.std.specs.Prelude.{◌≡◌, IsTrue};
ghost use Rattle.relation_terms.specs.Trees.{known};
ghost use Rattle.relation_terms.specs.Parts.{part_tree, parts_tree, part_sort};
ghost use Rattle.relation_folds.specs.Visits.{Walks, Asks, visited_sort, in_turns, told_inside_part};

use crate::visit::{TypeVisitor, Visit};
use relation_terms::terms::parts::{member, member_count, parts_of, visited_place};
use relation_terms::terms::{Interner, Part, PartOf, PartsOf};
use std::ops::ControlFlow;

// What the visitor answers at a part. It is asked about regions, types and constants, and all else is entered.
fn ask<I: Interner, V: TypeVisitor<I>>(
    cx: &I,
    part: &PartOf<I>,
    depth: u128,
    visitor: &mut V,
) -> Visit
    requires { IsTrue (known (part_tree (I.meaning cx.now) part.now)) }
    ensures { Asks (V.visits cx.now) (visited_sort (part_sort part.now)) depth visitor.old
        (part_tree (I.meaning cx.now) part.now) visitor.new result }
{
    match part {
        Part::Region(region) => visitor.visit_region(cx, region, depth),
        Part::Ty(ty) => visitor.visit_ty(cx, ty, depth),
        Part::Const(constant) => visitor.visit_const(cx, constant, depth),
        Part::ValTree(_) | Part::Pat(_) | Part::ValueType(_) => Visit::Enter,
        Part::Binder(..) | Part::Signature(_) | Part::Inputs(_) => Visit::Enter,
        Part::Existential(_) | Part::Object(_) => Visit::Enter,
    }
}

// How many binders a visitor is told to stand around the parts of a part under `depth` binders.
fn depth_inside<X: Copy, D: Copy>(part: &Part<X, D>, depth: u128) -> u128
    ensures { result ≡ told_inside_part part.now depth }
{
    match part {
        Part::Binder(..) if depth < u128::MAX => depth + 1,
        _ => depth,
    }
}

// Goes over a part that stands under `depth` binders: asks the visitor about it, and then goes over its own parts where
// the visitor enters it.
#[cycle(walk)]
pub fn visit_part<I: Interner, V: TypeVisitor<I>>(
    cx: &I,
    part: &PartOf<I>,
    depth: u128,
    visitor: &mut V,
) -> ControlFlow<()>
    requires { IsTrue (known (part_tree (I.meaning cx.now) part.now)) }
    ensures { Walks (V.visits cx.now) depth visitor.old
        (part_tree (I.meaning cx.now) part.now) visitor.new result }
{
    match ask(cx, part, depth, visitor) {
        Visit::Enter => visit_list(cx, &parts_of(cx, part), depth_inside(part, depth), visitor),
        Visit::Skip => ControlFlow::Continue(()),
        Visit::Stop => ControlFlow::Break(()),
    }
}

// Goes over the members of a list, in the list's order.
#[cycle(walk)]
pub fn visit_list<I: Interner, V: TypeVisitor<I>>(
    cx: &I,
    parts: &PartsOf<I>,
    depth: u128,
    visitor: &mut V,
) -> ControlFlow<()>
    requires { IsTrue (known (parts_tree (I.meaning cx.now) parts.now)) }
    ensures { Walks (V.visits cx.now) depth visitor.old (in_turns (I.meaning cx.now) parts.now) visitor.new result }
{
    let count = member_count(cx, parts);
    for step in 0..count {
        let part = member(cx, parts, visited_place(parts, count, step));
        visit_part(cx, &part, depth, visitor)?;
    }
    ControlFlow::Continue(())
}
