//! Graphs built of pairs of nodes.
ghost use Rattle.std.specs.Prelude.{◌≡◌, [], length, IfOk, OnOk};
ghost use Rattle.relation_regions.specs.Graphs.{IsGraph};
ghost use Rattle.relation_regions.specs.Building.{ArePairs, AddsPairs, AddsStatic, IsBuilt, IsBuiltAlone};

use crate::graph::Graph;
use std::alloc::Global;
use term_enums::OutOfMemory;

/// Pairs of numbered regions, the first of which outlives the second.
#[derive(Drop)]
pub struct Pairs {
    pub longer: Vec<usize>,
    pub shorter: Vec<usize>,
}

impl Pairs {
    /// No pairs. It takes no memory.
    pub fn new(alloc: Global) -> Pairs
        ensures longer { result.longer.items ≡ [] }
        ensures shorter { result.shorter.items ≡ [] }
    {
        Pairs {
            longer: Vec::new(alloc),
            shorter: Vec::new(alloc),
        }
    }
}

// An edge for each pair, in their order.
fn add_pairs(graph: &mut Graph, pairs: &Pairs) -> Result<(), OutOfMemory>
    requires graph { IsGraph graph.old }
    requires pairs { ArePairs (length graph.old.latest.items) pairs.now }
    ensures { OnOk result (AddsPairs graph.old pairs.now (length pairs.now.shorter.items) graph.new) }
{
    for pair in 0..pairs.shorter.len() {
        graph.add(pairs.longer[pair], pairs.shorter[pair])?;
    }
    Ok(())
}

// An edge from the node 0 to each, in their order.
fn add_static(graph: &mut Graph) -> Result<(), OutOfMemory>
    requires graph { IsGraph graph.old }
    ensures { OnOk result (AddsStatic graph.old (length graph.old.latest.items) graph.new) }
{
    for node in 0..graph.latest.len() {
        graph.add(0, node)?;
    }
    Ok(())
}

// An edge for each pair that is asked for, for each that is known, and from the node 0 to each.
fn add_all(graph: &mut Graph, asked: &Pairs, known: &Pairs) -> Result<(), OutOfMemory>
    requires graph { IsGraph graph.old }
    requires empty { graph.old.to.items ≡ [] }
    requires asked { ArePairs (length graph.old.latest.items) asked.now }
    requires known { ArePairs (length graph.old.latest.items) known.now }
    ensures { OnOk result (IsBuilt (length graph.old.latest.items) asked.now known.now graph.new) }
{
    add_pairs(graph, asked)?;
    add_pairs(graph, known)?;
    add_static(graph)
}

/// A graph of so many nodes: an edge for each pair that is asked for, then one for each that is known, then one from the
/// node 0 to each.
pub(crate) fn built(
    alloc: Global,
    nodes: usize,
    asked: &Pairs,
    known: &Pairs,
) -> Result<Graph, OutOfMemory>
    requires asked { ArePairs nodes asked.now }
    requires known { ArePairs nodes known.now }
    ensures { IfOk result (IsBuilt nodes asked.now known.now) }
{
    let mut graph = Graph::new(alloc, nodes)?;
    add_all(&mut graph, asked, known)?;
    Ok(graph)
}

/// The same, where no pair is asked for.
pub(crate) fn built_alone(alloc: Global, nodes: usize, known: &Pairs) -> Result<Graph, OutOfMemory>
    requires { ArePairs nodes known.now }
    ensures { IfOk result (IsBuiltAlone nodes known.now) }
{
    let none = Pairs::new(alloc);
    built(alloc, nodes, &none, known)
}
