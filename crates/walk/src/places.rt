//! The arguments that stand directly under a term, in the order of a walk: one loop over the parts of all forms.
//!
//! What is no argument itself, as a signature or a pattern, is gone through to the arguments in it.
ghost use Rattle.std.specs.Prelude.{IsTrue, OnOk};
ghost use Rattle.relation_terms.specs.Trees.{known};
ghost use Rattle.relation_terms.specs.Parts.{part_tree, parts_tree};
ghost use Rattle.walk.specs.Places.{places, places_under, Pushes, PushesPlaces};
ghost use Rattle.std.specs.Prelude.{true};

use relation_terms::terms::parts::{member, member_count, parts_of, ty_parts};
use relation_terms::terms::{
    GenericArg, GenericArgKind, Interner, OutOfMemory, Part, PartOf, Parts, PartsOf, Pat,
    PatternKind, Ty, TyKind, Tys,
};
use traversal::Stack;

// Puts the arguments of a part on a stack, the first on top: the part itself where it is one.
#[cycle(places)]
fn push_part<I: Interner>(
    cx: &I,
    part: &PartOf<I>,
    stack: &mut Stack<GenericArg<I>>,
) -> Result<(), OutOfMemory>
    requires { IsTrue (known (part_tree (I.meaning cx.now) part.now)) }
    ensures { let m = I.meaning cx.now in OnOk result (PushesPlaces m (part_tree m part.now) stack.old stack.new) }
{
    match part {
        Part::Region(region) => stack.push(GenericArgKind::Lifetime(*region))?,
        Part::Ty(ty) => stack.push(GenericArgKind::Ty(*ty))?,
        Part::Const(constant) => stack.push(GenericArgKind::Const(*constant))?,
        Part::ValTree(_) => {}
        Part::Pat(pat) => push_pat(cx, pat, stack)?,
        _ => push_list(cx, &parts_of(cx, part), stack)?,
    }
    Ok(())
}

// The same of a pattern. Of its alternatives the last comes first.
#[cycle(places)]
fn push_pat<I: Interner>(
    cx: &I,
    pat: &Pat<I>,
    stack: &mut Stack<GenericArg<I>>,
) -> Result<(), OutOfMemory>
    requires { IsTrue (known ((I.meaning cx.now).pat pat.now)) }
    ensures { let m = I.meaning cx.now in OnOk result (PushesPlaces m (m.pat pat.now) stack.old stack.new) }
{
    let kind = cx.pat_kind(pat);
    match &kind {
        PatternKind::Range { start, end } => {
            stack.push(GenericArgKind::Const(*end))?;
            stack.push(GenericArgKind::Const(*start))?;
        }
        PatternKind::Or(alternatives) => {
            push_back(cx, &Parts::Alternatives(*alternatives), stack)?;
        }
        PatternKind::NotNull => {}
    }
    Ok(())
}

// The same of the members of a list, from the first to the last.
#[cycle(places)]
pub fn push_list<I: Interner>(
    cx: &I,
    parts: &PartsOf<I>,
    stack: &mut Stack<GenericArg<I>>,
) -> Result<(), OutOfMemory>
    requires { IsTrue (known (parts_tree (I.meaning cx.now) parts.now)) }
    ensures { let m = I.meaning cx.now in OnOk result (PushesPlaces m (parts_tree m parts.now) stack.old stack.new) }
{
    let count = member_count(cx, parts);
    for i in 0..count {
        push_part(cx, &member(cx, parts, count - 1 - i), stack)?;
    }
    Ok(())
}

// The same from the last to the first.
#[cycle(places)]
fn push_back<I: Interner>(
    cx: &I,
    parts: &PartsOf<I>,
    stack: &mut Stack<GenericArg<I>>,
) -> Result<(), OutOfMemory>
    requires { IsTrue (known (parts_tree (I.meaning cx.now) parts.now)) }
    ensures { OnOk result (Pushes (I.meaning cx.now) (places true (parts_tree (I.meaning cx.now) parts.now))
        stack.old stack.new) }
{
    for i in 0..member_count(cx, parts) {
        push_part(cx, &member(cx, parts, i), stack)?;
    }
    Ok(())
}

// Puts the arguments that stand directly under a type on a stack, the first on top. Of the forms that stand most often
// no list of parts is made.
pub fn push_under_ty<I: Interner>(
    cx: &I,
    ty: &Ty<I>,
    stack: &mut Stack<GenericArg<I>>,
) -> Result<(), OutOfMemory>
    requires { IsTrue (known ((I.meaning cx.now).ty ty.now)) }
    ensures { let m = I.meaning cx.now in OnOk result (Pushes m (places_under (m.ty ty.now)) stack.old stack.new) }
{
    let kind = cx.ty_kind(ty);
    match &kind {
        TyKind::Slice(element) => stack.push(GenericArgKind::Ty(*element))?,
        TyKind::Ref(region, pointee, _) => {
            stack.push(GenericArgKind::Ty(*pointee))?;
            stack.push(GenericArgKind::Lifetime(*region))?;
        }
        TyKind::Tuple(members) => push_tys(cx, members, stack)?,
        _ => push_under_form(cx, ty, stack)?,
    }
    Ok(())
}

// The same of any form. It stands apart, so that the other takes little of the stack.
#[inline(never)]
fn push_under_form<I: Interner>(
    cx: &I,
    ty: &Ty<I>,
    stack: &mut Stack<GenericArg<I>>,
) -> Result<(), OutOfMemory>
    requires { IsTrue (known ((I.meaning cx.now).ty ty.now)) }
    ensures { let m = I.meaning cx.now in OnOk result (Pushes m (places_under (m.ty ty.now)) stack.old stack.new) }
{
    push_list(cx, &ty_parts(&cx.ty_kind(ty)), stack)
}

// The same of the types of a list.
fn push_tys<I: Interner>(
    cx: &I,
    tys: &Tys<I>,
    stack: &mut Stack<GenericArg<I>>,
) -> Result<(), OutOfMemory>
    requires { IsTrue (known ((I.meaning cx.now).tys tys.now)) }
    ensures { let m = I.meaning cx.now in OnOk result (PushesPlaces m (m.tys tys.now) stack.old stack.new) }
{
    let list = cx.tys(tys);
    let count = list.len();
    for i in 0..count {
        stack.push(GenericArgKind::Ty(list[count - 1 - i]))?;
    }
    Ok(())
}
