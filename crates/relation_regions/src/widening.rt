//! Variables that have to outlive what they can't name, and so 'static.
ghost use Rattle.std.specs.Prelude.{◌≡◌, ◌+◌, ◌<◌, length, IfOk, OnOk};
ghost use Rattle.relation_regions.specs.Graphs.{IsGraph};
ghost use Rattle.relation_regions.specs.Searches.{IsSearch, FindsAll};
ghost use Rattle.relation_regions.specs.Widening.{HaveReasons, AreReasons, IsWidened};

use crate::graph::Graph;
use crate::search::{Search, reaching};
use crate::standing::Standing;
use std::alloc::Global;
use term_enums::OutOfMemory;

// The target becomes the reason of each variable that reaches it and can't name it.
fn note_reasons(
    graph: &Graph,
    found: &Search,
    standings: &[Standing],
    target: usize,
    reasons: &mut Vec<Option<usize>>,
)
    requires search { IsSearch graph.now target found.now }
    requires all { FindsAll graph.now target found.now }
    requires nodes { length graph.now.latest.items ≡ length standings.now }
    requires target { target < length standings.now }
    requires reasons { AreReasons graph.now standings.now reasons.old.items }
    requires earlier { HaveReasons graph.now standings.now target reasons.old.items }
    ensures reasons { AreReasons graph.now standings.now reasons.new.items }
    ensures noted { HaveReasons graph.now standings.now (target + 1) reasons.new.items }
{
    for node in 0..standings.len() {
        if found.places[node].is_some() && standings[node].is_beyond(standings[target]) {
            reasons[node] = Some(target);
        }
    }
}

// The same, where the target is a placeholder. Of another one nothing is noted.
fn note_target(
    alloc: Global,
    graph: &Graph,
    standings: &[Standing],
    target: usize,
    reasons: &mut Vec<Option<usize>>,
) -> Result<(), OutOfMemory>
    requires graph { IsGraph graph.now }
    requires nodes { length graph.now.latest.items ≡ length standings.now }
    requires target { target < length standings.now }
    requires reasons { AreReasons graph.now standings.now reasons.old.items }
    requires earlier { HaveReasons graph.now standings.now target reasons.old.items }
    ensures reasons { OnOk result (AreReasons graph.now standings.now reasons.new.items) }
    ensures noted { OnOk result (HaveReasons graph.now standings.now (target + 1) reasons.new.items) }
{
    if !standings[target].is_placeholder() {
        return Ok(());
    }
    let found = reaching(alloc, graph, target)?;
    note_reasons(graph, &found, standings, target, reasons);
    Ok(())
}

/// Of each variable that reaches a placeholder that it can't name such a one.
pub(crate) fn reasons_of(
    alloc: Global,
    graph: &Graph,
    standings: &[Standing],
) -> Result<Vec<Option<usize>>, OutOfMemory>
    requires graph { IsGraph graph.now }
    requires nodes { length graph.now.latest.items ≡ length standings.now }
    ensures reasons { IfOk result (λ r. AreReasons graph.now standings.now r.items) }
    ensures all { IfOk result (λ r. HaveReasons graph.now standings.now (length standings.now) r.items) }
{
    let mut reasons = vec![in alloc; None; standings.len()]?;
    for target in 0..standings.len() {
        note_target(alloc, graph, standings, target, &mut reasons)?;
    }
    Ok(reasons)
}

/// Adds an edge to the node 0 from each that has a reason. After `OutOfMemory` the graph is none any more.
pub(crate) fn widen(graph: &mut Graph, reasons: &[Option<usize>]) -> Result<(), OutOfMemory>
    requires graph { IsGraph graph.old }
    requires nodes { length graph.old.latest.items ≡ length reasons.now }
    ensures { OnOk result (IsWidened graph.old reasons.now (length reasons.now) graph.new) }
{
    for node in 0..reasons.len() {
        if reasons[node].is_some() {
            graph.add(node, 0)?;
        }
    }
    Ok(())
}
