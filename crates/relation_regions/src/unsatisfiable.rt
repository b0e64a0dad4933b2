//! Which of the edges that are asked for make one node outlive another: an unsatisfiable core, where that isn't so.
ghost use Rattle.std.specs.Prelude.{◌≡◌, ◌<◌, ◌≤◌, length, All, Contains, IfOk, OnOk};
ghost use Rattle.relation_regions.specs.Graphs.{IsGraph, IsPath, Reaches};
ghost use Rattle.relation_regions.specs.Standings.{IsForced, Among};
ghost use Rattle.relation_regions.specs.Widening.{AreReasons, IsWidened};
ghost use Rattle.relation_regions.specs.Deciding.{Adds, HasAsked, HasAskedPath, EdgeIsForced};

use crate::graph::Graph;
use crate::search::path_to;
use crate::standing::Standing;
use std::alloc::Global;
use term_enums::OutOfMemory;

// An edge that is asked for.
fn add_edge(by: &mut Vec<usize>, asked: usize, edge: usize) -> Result<(), OutOfMemory>
    ensures adds { OnOk result (Adds asked by.old.items by.new.items) }
    ensures has { OnOk result (edge < asked → Contains by.new.items edge) }
{
    if edge < asked {
        by.push(edge)?;
    }
    Ok(())
}

// The edges of a path that are asked for.
fn add_asked(by: &mut Vec<usize>, asked: usize, path: &[usize]) -> Result<(), OutOfMemory>
    ensures adds { OnOk result (Adds asked by.old.items by.new.items) }
    ensures has { OnOk result (HasAsked asked path.now (length path.now) by.new.items) }
{
    for edge in path {
        add_edge(by, asked, *edge)?;
    }
    Ok(())
}

// The edges that are asked for of a path from a node to one that it reaches.
fn add_path(
    alloc: Global,
    graph: &Graph,
    asked: usize,
    node: usize,
    reached: usize,
    by: &mut Vec<usize>,
) -> Result<(), OutOfMemory>
    requires graph { IsGraph graph.now }
    requires node { node < length graph.now.latest.items }
    requires reached { reached < length graph.now.latest.items }
    requires reaches { Reaches graph.now node reached }
    ensures adds { OnOk result (Adds asked by.old.items by.new.items) }
    ensures has { OnOk result (HasAskedPath graph.now asked node reached by.new.items) }
{
    let path = path_to(alloc, graph, reached, node)?;
    add_asked(by, asked, path.as_slice())
}

// What of what is asked makes an edge: itself; or for one to 'static what makes its node reach its reason.
fn add_causes(
    alloc: Global,
    graph: &Graph,
    wide: &Graph,
    standings: &[Standing],
    reasons: &[Option<usize>],
    asked: usize,
    edge: usize,
    by: &mut Vec<usize>,
) -> Result<(), OutOfMemory>
    requires graph { IsGraph graph.now }
    requires nodes { length graph.now.latest.items ≡ length standings.now }
    requires reasons { AreReasons graph.now standings.now reasons.now }
    requires wide { IsWidened graph.now reasons.now (length reasons.now) wide.now }
    requires asked { asked ≤ length graph.now.to.items }
    requires edge { edge < length wide.now.to.items }
    ensures adds { OnOk result (Adds asked by.old.items by.new.items) }
    ensures forced { OnOk result (EdgeIsForced graph.now wide.now asked standings.now (Among by.new.items) edge) }
{
    if edge < graph.to.len() {
        return add_edge(by, asked, edge);
    }
    let node = wide.from[edge];
    let reason = reasons[node].unwrap_or(0);
    add_path(alloc, graph, asked, node, reason, by)
}

/// The edges that are asked for and make the start of a path outlive its end.
pub(crate) fn causes_of(
    alloc: Global,
    graph: &Graph,
    wide: &Graph,
    standings: &[Standing],
    reasons: &[Option<usize>],
    asked: usize,
    longer: usize,
    shorter: usize,
    path: &[usize],
) -> Result<Vec<usize>, OutOfMemory>
    requires graph { IsGraph graph.now }
    requires nodes { length graph.now.latest.items ≡ length standings.now }
    requires reasons { AreReasons graph.now standings.now reasons.now }
    requires wide { IsWidened graph.now reasons.now (length reasons.now) wide.now }
    requires asked { asked ≤ length graph.now.to.items }
    requires path { IsPath wide.now.from.items wide.now.to.items path.now longer shorter }
    ensures asked_for { IfOk result (λ by. All (λ i. i < asked) by.items) }
    ensures forced { IfOk result (λ by.
        IsForced graph.now.from.items graph.now.to.items asked standings.now (Among by.items) longer shorter) }
{
    let mut by = Vec::new(alloc);
    for edge in path {
        add_causes(
            alloc, graph, wide, standings, reasons, asked, *edge, &mut by,
        )?;
    }
    Ok(by)
}
