//! The walk over a term: each leaf is tested under the binders around it.
ghost use Rattle.std.specs.Prelude.{◌≡◌, IsTrue, IfErr, IfOk, OnOk};
ghost use Rattle.relation_terms.specs.Trees.{known};
ghost use Rattle.relation_terms.specs.Parts.{part_tree, parts_tree};
ghost use Rattle.may_relate.specs.Around.{sorts_around};
ghost use Rattle.may_relate.specs.Fitting.{FitsAll, TellsUnfit, sorts_inside};
ghost use Rattle.relation_semantics.specs.Stores.{Store};
ghost use Rattle.may_relate.specs.Seen.{AllSeen};
ghost use Rattle.may_relate.specs.declared.seen.Seen.{Seen};
ghost use Rattle.may_relate.specs.declared.unfit.Unfit.TheVariants.{Memory};

use crate::around::AroundOf;
use crate::leaves::own;
use crate::seen::{SeenOf, go_under, recalls, remember};
use crate::{HasVariables, Unfit};
use relation_terms::terms::parts::{member, member_count, parts_of};
use relation_terms::terms::{Interner, Part, PartOf, PartsOf};

// The binders around the parts of a part.
fn inside<'a, I: Interner>(
    cx: &'a I,
    part: &PartOf<I>,
    around: &'a AroundOf<'a, I>,
    seen: &mut SeenOf<I>,
) -> Result<AroundOf<'a, I>, Unfit>
    requires { IsTrue (known (part_tree (I.meaning cx.now) part.now)) }
    ensures sorts { IfOk result (λ inside. sorts_around inside ≡
        sorts_inside (part_tree (I.meaning cx.now) part.now) (sorts_around around.now)) }
    ensures seen { (st : Store) → AllSeen st around.now (I.meaning cx.now) seen.old →
        AllSeen st around.now (I.meaning cx.now) seen.new ×
        IfOk result (λ inside. AllSeen st inside (I.meaning cx.now) seen.new) }
    ensures back { IfOk result (λ inside. (st : Store) (seen : Seen I.Key) → AllSeen st inside (I.meaning cx.now) seen →
        AllSeen st around.now (I.meaning cx.now) seen) }
    ensures memory { IfErr result (λ e. e ≡ Memory) }
{
    match part {
        Part::Binder(vars, _) => go_under(cx, seen, vars, around),
        Part::Region(_) | Part::Ty(_) | Part::Const(_) => Ok(*around),
        Part::ValTree(_) | Part::Pat(_) | Part::ValueType(_) => Ok(*around),
        Part::Signature(_) | Part::Inputs(_) => Ok(*around),
        Part::Existential(_) | Part::Object(_) => Ok(*around),
    }
}

/// Nothing, where each leaf of a part may stand there; else the first reason why not, or `Memory`.
#[cycle(walk)]
pub fn part_fits<C: HasVariables>(
    ctx: &C,
    cx: &C::Interner,
    part: &PartOf<C::Interner>,
    around: &AroundOf<C::Interner>,
    seen: &mut SeenOf<C::Interner>,
) -> Result<(), Unfit>
    requires known { IsTrue (known (part_tree (C.Interner.meaning cx.now) part.now)) }
    requires seen { AllSeen (C.state ctx.now).store around.now (C.Interner.meaning cx.now) seen.old }
    ensures fits { OnOk result (FitsAll (C.state ctx.now).store (sorts_around around.now)
        (part_tree (C.Interner.meaning cx.now) part.now)) }
    ensures why { IfErr result (TellsUnfit (C.state ctx.now).store (sorts_around around.now)
        (part_tree (C.Interner.meaning cx.now) part.now)) }
    ensures seen { AllSeen (C.state ctx.now).store around.now (C.Interner.meaning cx.now) seen.new }
{
    if recalls(cx, seen, part, around) {
        return Ok(());
    }
    own(ctx, cx, part, around)?;
    let inside = inside(&*cx, part, &*around, seen)?;
    let parts = parts_of(cx, part);
    list_fits(ctx, cx, &parts, &inside, seen)?;
    remember(cx, seen, part, around)
}

/// The same of each member of a list.
#[cycle(walk)]
pub fn list_fits<C: HasVariables>(
    ctx: &C,
    cx: &C::Interner,
    parts: &PartsOf<C::Interner>,
    around: &AroundOf<C::Interner>,
    seen: &mut SeenOf<C::Interner>,
) -> Result<(), Unfit>
    requires known { IsTrue (known (parts_tree (C.Interner.meaning cx.now) parts.now)) }
    requires seen { AllSeen (C.state ctx.now).store around.now (C.Interner.meaning cx.now) seen.old }
    ensures fits { OnOk result (FitsAll (C.state ctx.now).store (sorts_around around.now)
        (parts_tree (C.Interner.meaning cx.now) parts.now)) }
    ensures why { IfErr result (TellsUnfit (C.state ctx.now).store (sorts_around around.now)
        (parts_tree (C.Interner.meaning cx.now) parts.now)) }
    ensures seen { AllSeen (C.state ctx.now).store around.now (C.Interner.meaning cx.now) seen.new }
{
    for i in 0..member_count(cx, parts) {
        let part = member(cx, parts, i);
        part_fits(ctx, cx, &part, around, seen)?;
    }
    Ok(())
}
