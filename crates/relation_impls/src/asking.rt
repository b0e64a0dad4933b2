//! Whether all that two impls ask for follows, once what they give was made one.
ghost use Rattle.std.specs.Prelude.{All, IfOk};
ghost use Rattle.relation_proving.specs.Candidates.{MayAsk};
ghost use Rattle.relation_proving.specs.Telling.{MayProve, GoesOn};
ghost use Rattle.relation_impls.specs.Telling.{TellsBounds};

use crate::answer::{Impls, WhyApart};
use kept_records::KeepsRecord;
use relation_folds::error::RelateResult;
use relation_proving::opening::RuleOf;
use relation_proving::proving::{Told, prove};
use relation_terms::terms::{Clause, ParamEnv, Span};

/// Whether all of a list follow, each by what is recorded once others were proved. Those of which it isn't told are asked
/// again behind the others, with these. What is recorded then is left.
pub(crate) fn bounds_hold<C: KeepsRecord>(
    ctx: &mut C,
    rules: &[RuleOf<C::Interner>],
    param_env: ParamEnv<C::Interner>,
    bounds: &[Clause<C::Interner>],
    depth: usize,
    span: Span<C::Interner>,
) -> RelateResult<C::Interner, Impls>
    requires may { MayProve (C.state ctx.old) rules.now param_env }
    requires bounds { All (MayAsk (C.state ctx.old)) bounds.now }
    ensures goes_on { GoesOn (C.state ctx.old) (C.state ctx.new) }
    ensures tells { IfOk result (TellsBounds (C.state ctx.old) (C.state ctx.new) rules.now bounds.now) }
{
    match each_holds(ctx, rules, param_env, bounds, depth, span)? {
        Impls::Unclear(_) => each_holds(ctx, rules, param_env, bounds, depth, span),
        Impls::Meet => Ok(Impls::Meet),
        Impls::Apart(why) => Ok(Impls::Apart(why)),
    }
}

// The same of a list that is asked once, one after another. One of which it isn't told is passed over.
fn each_holds<C: KeepsRecord>(
    ctx: &mut C,
    rules: &[RuleOf<C::Interner>],
    param_env: ParamEnv<C::Interner>,
    bounds: &[Clause<C::Interner>],
    depth: usize,
    span: Span<C::Interner>,
) -> RelateResult<C::Interner, Impls>
    requires may { MayProve (C.state ctx.old) rules.now param_env }
    requires bounds { All (MayAsk (C.state ctx.old)) bounds.now }
    ensures goes_on { GoesOn (C.state ctx.old) (C.state ctx.new) }
    ensures tells { IfOk result (TellsBounds (C.state ctx.old) (C.state ctx.new) rules.now bounds.now) }
{
    let mut told = Impls::Meet;
    for (place, bound) in bounds.iter().enumerate() {
        match prove(ctx, rules, param_env, bound, depth, span)? {
            Told::Yes(_) => {}
            Told::No(_) => return Ok(Impls::Apart(WhyApart::ByBound(place))),
            Told::Maybe(why) => {
                told = Impls::Unclear(why);
            }
        }
    }
    Ok(told)
}
