//! Solving: can numbered regions be as constraints ask? What a number means, and which constraints make which pairs, is
//! the caller's.
ghost use Rattle.std.specs.Prelude.{length, IfOk};
ghost use Rattle.relation_regions.specs.Building.{ArePairs, IsBuiltAlone};
ghost use Rattle.relation_regions.specs.Demands.{IfMet, IfUnmet};

pub use crate::building::Pairs;
use crate::building::{built, built_alone};
pub use crate::decide::Decision;
use crate::decide::decide;
use crate::graph::Graph;
pub use crate::standing::Standing;
use std::alloc::Global;
use term_enums::OutOfMemory;

/// Whether numbered regions can be as it is asked, where of given ones, which are no variables, just what is known
/// outlives. Of each number it is said what the region is; 0 is `'static`, which outlives all. What outlives a
/// placeholder that its universe can't name outlives `'static`.
///
/// After `Met` nothing that is asked makes a given region outlive another one that it isn't known to. The values are,
/// of each variable, the given regions that it has to outlive, and no others.
///
/// After `Unmet` they can't: the pairs that are named make the one given region outlive the other, though that isn't
/// known.
///
/// It takes time linear in pairs times given regions.
///
/// # Errors
/// `OutOfMemory` where a growth was refused.
pub fn solve(
    alloc: Global,
    standings: &[Standing],
    asked: &Pairs,
    known: &Pairs,
) -> Result<Decision, OutOfMemory>
    requires asked { ArePairs (length standings.now) asked.now }
    requires known { ArePairs (length standings.now) known.now }
    ensures met { IfOk result (IfMet standings.now asked.now known.now) }
    ensures unmet { IfOk result (IfUnmet standings.now asked.now known.now) }
{
    let alone = built_alone(alloc, standings.len(), known)?;
    solve_beside(alloc, standings, asked, known, &alone)
}

// The same, by the graph of what is known alone.
fn solve_beside(
    alloc: Global,
    standings: &[Standing],
    asked: &Pairs,
    known: &Pairs,
    alone: &Graph,
) -> Result<Decision, OutOfMemory>
    requires asked { ArePairs (length standings.now) asked.now }
    requires known { ArePairs (length standings.now) known.now }
    requires alone { IsBuiltAlone (length standings.now) known.now alone.now }
    ensures met { IfOk result (IfMet standings.now asked.now known.now) }
    ensures unmet { IfOk result (IfUnmet standings.now asked.now known.now) }
{
    let graph = built(alloc, standings.len(), asked, known)?;
    let mut wide = built(alloc, standings.len(), asked, known)?;
    decide(
        alloc,
        alone,
        &graph,
        &mut wide,
        asked.shorter.len(),
        standings,
    )
}
