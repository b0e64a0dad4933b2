//! How what came of a question is written.
ghost use Rattle.std.specs.Prelude.{IsTrue, IfSome, IfOk};
ghost use Rattle.relation_terms.specs.Trees.{known};
ghost use Rattle.relation_terms.specs.Meaning.{arg_tree};
ghost use Rattle.variable_tables.specs.Tables.{IsLawful};
ghost use Rattle.text_asking.specs.Asking.{KnowsAnswer, KnowsRelated};

use crate::answer_text::{AnswerText, CUT_OFF};
use crate::coherence::{write_methods, write_overlap};
use crate::context::write_not_asked;
use crate::counts::write_counted;
use crate::elaborating::write_lowered;
use crate::impls::write_impls;
use crate::outliving::{write_assumptions, write_components};
use crate::printing::write_answer;
use crate::proving::write_proved;
use crate::question::{Answer, AnswerOf, Outcome, Unasked};
use crate::quick::write_key;
use crate::visiting::write_met;
use crate::walking::write_walked;
use relation_reference::context::RefCtxt;
use relation_semantics::infer_ctxt::InferCtxtLike;
use relation_terms::terms::{GenericArg, Interner};
use std::fmt::{self, Write};
use text_depths::Bounded;
use text_elaboration::pulls::write_pulls;
use text_proving::proving::unasked_text;
use text_terms::printing::{TextsOf, write_arg};
use text_users::overlapping::write_why_not;
use text_users::write_solved;
use type_relations::relate::solver_relating::RelateGoals;

// Writes how many instantiations are left, where it was said how many a context may make.
fn write_left<I: Interner, W: Write>(
    ctx: &RefCtxt<I>,
    asked: &Bounded,
    out: &mut W,
) -> fmt::Result {
    if asked.question.budget.is_some() {
        let left = ctx.budget_left();
        write!(out, "; left={left}")?;
    }
    Ok(())
}

// Writes what a relation answered, or how much it leaves where that is counted, and how many instantiations are left
// where it was said how many a relation may make.
fn write_related<I: Interner, W: Write>(
    ctx: &RefCtxt<I>,
    texts: &TextsOf<I>,
    asked: &Bounded,
    related: &RelateGoals<I>,
    out: &mut W,
) -> fmt::Result
    requires lawful { IsLawful (I.meaning ctx.now.interner) ctx.now.inner }
    requires known { KnowsRelated (I.meaning ctx.now.interner) related.now }
{
    match (asked.question.counts, related) {
        (Some(counted), Ok(goals)) => write_counted(ctx, counted, goals, out)?,
        _ => write_answer(ctx, texts, related, out)?,
    }
    write_left(ctx, asked, out)
}

// Writes what a variable is bound to, or that it is to nothing.
fn write_binding<I: Interner, W: Write>(
    cx: &I,
    texts: &TextsOf<I>,
    bound: &Option<GenericArg<I>>,
    out: &mut W,
) -> fmt::Result
    requires { IfSome bound.now (λ a. IsTrue (known (arg_tree (I.meaning cx.now) a))) }
{
    match bound {
        Some(term) => write_arg(cx, texts, term, out),
        None => out.write_str("none"),
    }
}

// Writes an answer.
fn write_given<I: Interner, W: Write>(
    ctx: &RefCtxt<I>,
    texts: &TextsOf<I>,
    asked: &Bounded,
    answer: &AnswerOf<I>,
    out: &mut W,
) -> fmt::Result
    requires lawful { IsLawful (I.meaning ctx.now.interner) ctx.now.inner }
    requires known { let m = I.meaning ctx.now.interner in
        KnowsAnswer m (KnowsRelated m) answer.now }
{
    match answer {
        Answer::Related(related) => write_related(ctx, texts, asked, related, out),
        Answer::Met(met) => write_met(&ctx.interner, texts, met, out),
        Answer::Walked(yielded) => write_walked(&ctx.interner, texts, yielded, out),
        Answer::Components(found) => write_components(&ctx.interner, texts, found, out),
        Answer::Assumed(all) => write_assumptions(&ctx.interner, texts, all, out),
        Answer::Folded(term) => write_arg(&ctx.interner, texts, term, out),
        Answer::Is(holds) => write!(out, "{holds}"),
        Answer::Key(key) => write_key::<I, W>(texts, key, out),
        Answer::Pulls(all) if asked.lowered => write_lowered(&ctx.interner, texts, all, out),
        Answer::Pulls(all) => write_pulls(&ctx.interner, texts, all, out),
        Answer::Binding(bound) => write_binding(&ctx.interner, texts, bound, out),
        Answer::Solved(solved) => write_solved(ctx, texts, solved, out),
        Answer::Overlap(of, told) => {
            write_overlap(ctx, texts, *of, told, out)?;
            write_left(ctx, asked, out)
        }
        Answer::Methods(names) => write_methods::<I, W>(texts, names, out),
        Answer::Impls(told, bound) => {
            write_impls::<I, W>(told, *bound, out)?;
            write_left(ctx, asked, out)
        }
        Answer::Proved(told, source) => {
            write_proved(ctx, texts, told, *source, out)?;
            write_left(ctx, asked, out)
        }
    }
}

// Writes what came of a question.
fn write_outcome<I: Interner, W: Write>(
    ctx: &RefCtxt<I>,
    texts: &TextsOf<I>,
    asked: &Bounded,
    outcome: &Outcome<I>,
    out: &mut W,
) -> fmt::Result
    requires lawful { IsLawful (I.meaning ctx.now.interner) ctx.now.inner }
    requires known { let m = I.meaning ctx.now.interner in
        IfOk outcome.now (KnowsAnswer m (KnowsRelated m)) }
{
    match outcome {
        Err(Unasked::Memory) => out.write_str("memory"),
        Err(Unasked::NotAsked(why)) => write_not_asked(*why, ctx.inner.universe.0, out),
        Err(Unasked::Impls(why)) => write_why_not(*why, out),
        Err(Unasked::Proof(why)) => out.write_str(unasked_text(*why)),
        Ok(answer) => write_given(ctx, texts, asked, answer, out),
    }
}

// Writes what came of a question, as a text that is made first: where that is too long, what is told of it is cut off,
// and where it can't be made, `memory` stands in its place.
pub(super) fn write_whole<I: Interner, W: Write>(
    ctx: &RefCtxt<I>,
    texts: &TextsOf<I>,
    asked: &Bounded,
    outcome: &Outcome<I>,
    text: &mut AnswerText,
    out: &mut W,
) -> fmt::Result
    requires lawful { IsLawful (I.meaning ctx.now.interner) ctx.now.inner }
    requires known { let m = I.meaning ctx.now.interner in
        IfOk outcome.now (KnowsAnswer m (KnowsRelated m)) }
{
    text.clear();
    match write_outcome(ctx, texts, asked, outcome, text) {
        Ok(()) => out.write_str(text.text.as_str()),
        Err(_) if text.cut => {
            out.write_str(text.text.as_str())?;
            out.write_str(CUT_OFF)
        }
        Err(_) => out.write_str("memory"),
    }
}
