//! To which goal it is due that a goal doesn't follow.
ghost use Rattle.std.specs.Prelude.{◌≡◌, ◌<◌, length, IfOk, IfSome};
ghost use Rattle.relation_proving.specs.Candidates.{MayAsk};
ghost use Rattle.relation_proving.specs.Searching.{first_of};
ghost use Rattle.relation_proving.specs.Telling.{GoesOn, KnowsBlame};

use crate::opening::RuleOf;
use crate::told::{Blame, BlameOf};
use relation_semantics::infer_ctxt::InferCtxtLike;
use relation_terms::terms::{Clause, OutOfMemory};

/// Of two goals that are named the first.
pub(crate) fn first_named<X: Copy>(
    first: Option<Blame<X>>,
    second: Option<Blame<X>>,
) -> Option<Blame<X>>
    ensures { result ≡ first_of first second }
{
    match first {
        Some(blame) => Some(blame),
        None => second,
    }
}

/// To which goal it is due that one doesn't follow which the rule at a place asks for: the one that is named, or else
/// itself, its variables read by what is recorded.
///
/// # Errors
/// `OutOfMemory` where a growth was refused. Nothing is recorded.
pub(crate) fn blame_of<C: InferCtxtLike>(
    ctx: &mut C,
    rules: &[RuleOf<C::Interner>],
    named: Option<BlameOf<C::Interner>>,
    goal: &Clause<C::Interner>,
    by: usize,
) -> Result<BlameOf<C::Interner>, OutOfMemory>
    requires lawful { (C.state ctx.old).lawful }
    requires goal { MayAsk (C.state ctx.old) goal.now }
    requires named { IfSome named (KnowsBlame (C.state ctx.old) rules.now) }
    requires by { by < length rules.now }
    ensures goes_on { GoesOn (C.state ctx.old) (C.state ctx.new) }
    ensures known { IfOk result (KnowsBlame (C.state ctx.new) rules.now) }
{
    if let Some(blame) = named {
        return Ok(blame);
    }
    let goal = ctx.resolve_vars_if_possible(goal)?;
    Ok(Blame { goal, by })
}
