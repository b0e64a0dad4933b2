//! Whether the headers of two impls overlap, where they may be asked about.
ghost use Rattle.std.specs.Prelude.{◌≡◌, IsTrue, IfNone, IfOk};
ghost use Rattle.relation_terms.specs.Trees.{known, count};
ghost use Rattle.relation_terms.specs.Meaning.{Extends};
ghost use Rattle.relation_semantics.specs.Contexts.{KnowsEnv};
ghost use Rattle.relation_coherence.specs.Answers.{KnowsOverlap, TellsApart, CoversBoth};
ghost use Rattle.relation_coherence.specs.Headers.{KnowsHeader};
ghost use Rattle.text_users.specs.Asked.{MayOverlap};

use crate::fixed::are_fixed;
use may_relate::{HasVariables, Unfit, may_relate};
use relation_coherence::overlap::{HeaderOf, OverlapOf, overlap};
use relation_folds::error::RelateResult;
use relation_terms::terms::parts::member_count;
use relation_terms::terms::{GenericArgs, Interner, ParamEnv, Parts};
use std::fmt::{self, Write};

/// Why two headers are not asked about.
#[derive(Clone, Copy)]
pub enum WhyNot {
    /// One has more arguments than the other.
    Lengths,
    /// In one stands an inference variable, or a parameter of a type or a constant that it does not bind.
    Unfixed,
    /// One may not be related in the context, or a growth was refused.
    Unfit(Unfit),
}

/// What comes of asking whether two headers overlap.
pub type OverlapResult<I> = RelateResult<I, OverlapOf<I>>;

// Why a header is not asked about, if it may not be.
fn refusal<C: HasVariables>(ctx: &C, header: &HeaderOf<C::Interner>) -> Option<WhyNot>
    requires { KnowsHeader (C.state ctx.now) header.now }
    ensures { IfNone result (MayOverlap (C.state ctx.now) header.now) }
{
    let cx = ctx.cx();
    if !are_fixed(cx, &header.value) {
        return Some(WhyNot::Unfixed);
    }
    match may_relate(ctx, header) {
        Ok(()) => None,
        Err(unfit) => Some(WhyNot::Unfit(unfit)),
    }
}

// Whether two lists have as many arguments.
fn are_as_many<I: Interner>(cx: &I, lhs: &GenericArgs<I>, rhs: &GenericArgs<I>) -> bool
    requires left_known { IsTrue (known ((I.meaning cx.now).args lhs.now)) }
    requires right_known { IsTrue (known ((I.meaning cx.now).args rhs.now)) }
    ensures { IsTrue result → count ((I.meaning cx.now).args lhs.now) ≡ count ((I.meaning cx.now).args rhs.now) }
{
    let left = member_count(cx, &Parts::Args(*lhs));
    let right = member_count(cx, &Parts::Args(*rhs));
    left == right
}

// Why two headers are not asked about, if they may not be.
fn pair_refusal<C: HasVariables>(
    ctx: &C,
    left: &HeaderOf<C::Interner>,
    right: &HeaderOf<C::Interner>,
) -> Option<WhyNot>
    requires left_known { KnowsHeader (C.state ctx.now) left.now }
    requires right_known { KnowsHeader (C.state ctx.now) right.now }
    ensures left { IfNone result (MayOverlap (C.state ctx.now) left.now) }
    ensures right { IfNone result (MayOverlap (C.state ctx.now) right.now) }
    ensures fits { IfNone result (count ((C.state ctx.now).meaning.args left.now.value)
        ≡ count ((C.state ctx.now).meaning.args right.now.value)) }
{
    let cx = ctx.cx();
    if !are_as_many(cx, &left.value, &right.value) {
        return Some(WhyNot::Lengths);
    }
    if let Some(why) = refusal(ctx, left) {
        return Some(why);
    }
    if let Some(why) = refusal(ctx, right) {
        return Some(why);
    }
    None
}

/// Whether two headers overlap in a context, and in what, as `overlap` tells. The interner knows both and the
/// environment.
///
/// # Errors
/// What stands in the way of asking: then the context is as it was.
pub fn ask_overlap<C: HasVariables>(
    ctx: &mut C,
    param_env: ParamEnv<C::Interner>,
    left: HeaderOf<C::Interner>,
    right: HeaderOf<C::Interner>,
) -> Result<OverlapResult<C::Interner>, WhyNot>
    requires lawful { (C.state ctx.old).lawful }
    requires env_known { KnowsEnv (C.state ctx.old) param_env }
    requires left_known { KnowsHeader (C.state ctx.old) left }
    requires right_known { KnowsHeader (C.state ctx.old) right }
    ensures apart { IfOk result (TellsApart (C.state ctx.old) (C.state ctx.new) left right) }
    ensures covers { IfOk result (CoversBoth (C.state ctx.old) (C.state ctx.new) left right) }
    ensures known { IfOk result (KnowsOverlap (C.state ctx.new).meaning) }
    ensures lawful { (C.state ctx.new).lawful }
    ensures grown { Extends (C.state ctx.old).meaning (C.state ctx.new).meaning }
{
    if let Some(why) = pair_refusal(&*ctx, &left, &right) {
        return Err(why);
    }
    let span = ctx.cx().dummy_span();
    Ok(overlap(ctx, param_env, left, right, span))
}

/// Writes why headers are not asked about, or `memory` where a growth was refused.
///
/// # Errors
/// `fmt::Error` where `out` refused to take some of the text. What it took before stands.
pub fn write_why_not<W: Write>(why: WhyNot, out: &mut W) -> fmt::Result {
    out.write_str(match why {
        WhyNot::Lengths => "not asked: one list has more arguments than the other",
        WhyNot::Unfixed => {
            "not asked: a variable or a parameter stands in a header that does not bind it"
        }
        WhyNot::Unfit(Unfit::LaterUniverse(_)) => {
            "not asked: the context's universe does not name the placeholder"
        }
        WhyNot::Unfit(Unfit::Memory) => "memory",
        WhyNot::Unfit(_) => "not asked: a binder in a header does not bind by its list",
    })
}
