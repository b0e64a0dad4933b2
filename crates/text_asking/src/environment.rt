//! The environment in which a question is asked.
ghost use Rattle.std.specs.Prelude.{IsTrue, IfOk, OnOk};
ghost use Rattle.relation_terms.specs.Trees.{known};
ghost use Rattle.relation_terms.specs.Meaning.{Extends};
ghost use Rattle.variable_tables.specs.Tables.{IsLawful};
ghost use Rattle.text_asking.specs.Asking.{AllReady};
ghost use Rattle.text_asking.specs.Environments.{MakesEnvironment};
ghost use Rattle.text_asking.specs.Fits.{HasNeeds};

use crate::context::NotAsked;
use crate::elaborating::clauses_of;
use crate::fits::{Needs, have_needed};
use crate::question::{Ready, Unasked};
use may_relate::Unfit;
use relation_reference::context::RefCtxt;
use relation_terms::terms::{Interner, ParamEnv, UniverseIndex};
use std::fmt::{self, Write};
use text_clauses::printing::write_clause;
use text_reading::naming::Parts;
use text_terms::printing::TextsOf;

// The environment of a range of a program's predicates.
pub(super) fn environment_of<I: Interner>(
    cx: &mut I,
    terms: &Ready<I>,
    assumed: Parts,
) -> Result<ParamEnv<I>, Unasked>
    requires { AllReady (I.meaning cx.old) terms.now }
    ensures grown { Extends (I.meaning cx.old) (I.meaning cx.new) }
    ensures sure { IfOk result (λ k. IsTrue (known ((I.meaning cx.new).param_env k))) }
    ensures made { MakesEnvironment I.meaning cx.old cx.new terms.now assumed result }
{
    let Some(clauses) = clauses_of(cx, terms, assumed) else {
        return Err(Unasked::Memory);
    };
    let list = cx.mk_clauses(&clauses)?;
    let param_env = cx.mk_param_env(list)?;
    Ok(param_env)
}

// The environment of what is assumed, in a context that has what two terms need. None is made where they need a later
// universe: they may not be asked about.
#[tactic(auto, using(relation_terms::proofs::Stays::extends_on))]
pub(super) fn environment_for<I: Interner>(
    ctx: &mut RefCtxt<I>,
    terms: &Ready<I>,
    assumed: Parts,
    lhs: &Needs,
    rhs: &Needs,
) -> Result<ParamEnv<I>, Unasked>
    requires lawful { IsLawful (I.meaning ctx.old.interner) ctx.old.inner }
    requires ready { AllReady (I.meaning ctx.old.interner) terms.now }
    ensures lawful { IsLawful (I.meaning ctx.new.interner) ctx.new.inner }
    ensures grown { Extends (I.meaning ctx.old.interner) (I.meaning ctx.new.interner) }
    ensures sure { IfOk result (λ k. IsTrue (known ((I.meaning ctx.new.interner).param_env k))) }
    ensures lhs { OnOk result (HasNeeds ctx.new.inner lhs.now) }
    ensures rhs { OnOk result (HasNeeds ctx.new.inner rhs.now) }
{
    let latest = lhs.universe.max(rhs.universe);
    if ctx.inner.universe.0 < latest {
        let unfit = Unfit::LaterUniverse(UniverseIndex(latest));
        return Err(Unasked::NotAsked(NotAsked::Unfit(unfit)));
    }
    have_needed(ctx, lhs)?;
    have_needed(ctx, rhs)?;
    environment_of(&mut ctx.interner, terms, assumed)
}

// Writes what an environment has, if anything.
pub(super) fn write_environment<I: Interner, W: Write>(
    cx: &I,
    texts: &TextsOf<I>,
    param_env: &ParamEnv<I>,
    out: &mut W,
) -> fmt::Result
    requires { IsTrue (known ((I.meaning cx.now).param_env param_env.now)) }
{
    let bounds = cx.caller_bounds(param_env);
    let mut any = false;
    for clause in cx.clauses(&bounds) {
        out.write_str(if any { ", " } else { " assuming [" })?;
        write_clause(cx, texts, clause, out)?;
        any = true;
    }
    if any { out.write_str("]") } else { Ok(()) }
}
