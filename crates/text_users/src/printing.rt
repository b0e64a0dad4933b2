//! How what was solved is written.
ghost use Rattle.std.specs.Prelude.{IsTrue, IfSome};
ghost use Rattle.relation_terms.specs.Trees.{known};
ghost use Rattle.text_users.specs.Solved.{KnowsSolved};

use crate::rows::{Row, row_count, row_of};
use may_relate::HasVariables;
use relation_regions::{RecordedRegions, Solved};
use relation_semantics::infer_ctxt::InferCtxtLike;
use relation_terms::terms::{Interner, Keys, Region, RegionKind, UniverseIndex};
use std::fmt::{self, Write};
use text_terms::printing::{TextsOf, write_region};

// The universe of a region that is a variable of the context, the first one of all else.
fn universe_of<C: HasVariables>(ctx: &C, region: &Region<C::Interner>) -> usize
    requires lawful { (C.state ctx.now).lawful }
    requires known { IsTrue (known (((C.state ctx.now).meaning).region region.now)) }
{
    match ctx.cx().region_kind(region) {
        RegionKind::ReVar(vid) if ctx.has_region_var(vid) => {
            ctx.universe_of_lt(vid).unwrap_or(UniverseIndex(0)).0
        }
        _ => 0,
    }
}

// Writes a universe, unless that is the first one.
fn write_universe<W: Write>(universe: usize, out: &mut W) -> fmt::Result {
    match universe {
        0 => Ok(()),
        _ => write!(out, " in {universe}"),
    }
}

// Writes a text, then a region, if there is one, and behind a variable its universe.
fn write_placed<C: HasVariables, W: Write>(
    ctx: &C,
    texts: &TextsOf<C::Interner>,
    before: &str,
    placed: Option<Region<C::Interner>>,
    out: &mut W,
) -> fmt::Result
    requires lawful { (C.state ctx.now).lawful }
    requires known { IfSome placed (λ r. IsTrue (known (((C.state ctx.now).meaning).region r))) }
{
    out.write_str(before)?;
    let Some(region) = placed else {
        return Ok(());
    };
    write_region(ctx.cx(), texts, &region, out)?;
    write_universe(universe_of(ctx, &region), out)
}

/// Writes what was answered: `met; '?0=['a, 'b]`, of each variable the given regions that it has to outlive, if any; or
/// `unmet: 'a: 'b, by 'a: '?0, '?0: 'b`, a given region that can't outlive another one as it should, and the constraints
/// that make it. Behind a variable stands its universe, as `'?0 in 1`, unless that is the first one.
///
/// The interner has to know what was answered.
///
/// # Errors
/// `fmt::Error` where `out` refused to take some of the text, or memory was refused. What `out` took before stands.
pub fn write_solved<C: RecordedRegions + HasVariables, W: Write>(
    ctx: &C,
    texts: &TextsOf<C::Interner>,
    solved: &Solved<<C::Interner as Keys>::Key>,
    out: &mut W,
) -> fmt::Result
    requires lawful { (C.state ctx.now).lawful }
    requires known { KnowsSolved (C.state ctx.now).meaning solved.now }
{
    let constraints = ctx.region_constraints();
    for number in 0..row_count(solved) {
        let Row {
            before,
            first,
            between,
            second,
        } = row_of(solved, constraints, number);
        write_placed(ctx, texts, before, first, out)?;
        write_placed(ctx, texts, between, second, out)?;
    }
    Ok(())
}
