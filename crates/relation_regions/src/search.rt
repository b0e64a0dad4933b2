//! From which nodes of a graph one of them is reached, and by what path.
ghost use Rattle.std.specs.Prelude.{◌≡◌, ℕ, ◌<◌, ◌≤◌, length, get_or, OnOk, IfOk};
ghost use Rattle.relation_regions.specs.Graphs.{IsGraph, IsPath, Reaches};
ghost use Rattle.relation_regions.specs.Searches.{IsSearch, Keeps, IsFound, HasPredecessors, FindsAll};

use crate::graph::Graph;
use crate::rows::push_row;
use std::alloc::Global;
use term_enums::OutOfMemory;

/// The nodes from which a target is reached, in the order in which they were found: the target first, each other one by
/// an edge that leads to one found before.
#[derive(Drop)]
pub(crate) struct Search {
    /// Of each node the place at which it was found.
    pub(crate) places: Vec<Option<usize>>,
    /// At each place the node.
    pub(crate) nodes: Vec<usize>,
    /// At each place the edge by which it was found; at the first, 0.
    pub(crate) edges: Vec<usize>,
    /// At each place that to which the edge leads; at the first, 0.
    pub(crate) onward: Vec<usize>,
}

impl Search {
    // The target alone is found.
    fn new(alloc: Global, graph: &Graph, target: usize) -> Result<Search, OutOfMemory>
        requires graph { IsGraph graph.now }
        requires target { target < length graph.now.latest.items }
        ensures { IfOk result (IsSearch graph.now target) }
    {
        let mut places = vec![in alloc; None; graph.latest.len()]?;
        places[target] = Some(0);
        let mut nodes = Vec::new(alloc);
        let mut edges = Vec::new(alloc);
        let mut onward = Vec::new(alloc);
        push_row(&mut nodes, &mut edges, &mut onward, target, 0, 0)?;
        Ok(Search {
            places,
            nodes,
            edges,
            onward,
        })
    }

    // The node that an edge leads from is found, by the place that the edge leads to.
    fn find(
        &mut self,
        graph: &Graph,
        target: usize,
        edge: usize,
        place: usize,
    ) -> Result<(), OutOfMemory>
        requires search { IsSearch graph.now target self.old }
        requires edge { edge < length graph.now.to.items }
        requires graph { IsGraph graph.now }
        requires place { place < length self.old.nodes.items }
        requires leads { get_or graph.now.to.items edge 0 ≡ get_or self.old.nodes.items place 0 }
        ensures search { OnOk result (IsSearch graph.now target self.new) }
        ensures keeps { OnOk result (Keeps self.old self.new) }
        ensures found { OnOk result (IsFound self.new (get_or graph.now.from.items edge 0)) }
    {
        let node = graph.from[edge];
        if self.places[node].is_none() {
            self.places[node] = Some(self.nodes.len());
            push_row(
                &mut self.nodes,
                &mut self.edges,
                &mut self.onward,
                node,
                edge,
                place,
            )?;
        }
        Ok(())
    }

    // All nodes are found from which an edge leads to the one at a place.
    fn find_predecessors(
        &mut self,
        graph: &Graph,
        target: usize,
        place: usize,
    ) -> Result<(), OutOfMemory>
        requires graph { IsGraph graph.now }
        requires search { IsSearch graph.now target self.old }
        requires place { place < length self.old.nodes.items }
        ensures search { OnOk result (IsSearch graph.now target self.new) }
        ensures keeps { OnOk result (Keeps self.old self.new) }
        ensures found { OnOk result (HasPredecessors graph.now self.new 0 (get_or self.old.nodes.items place 0)) }
    {
        let node = self.nodes[place];
        let mut left = graph.latest[node];
        while left > 0 {
            self.find(graph, target, left - 1, place)?;
            left = graph.earlier[left - 1];
        }
        Ok(())
    }

    // Edges that lead, one after another, from a found node to the target.
    fn path(
        &self,
        alloc: Global,
        graph: &Graph,
        target: usize,
        node: usize,
    ) -> Result<Vec<usize>, OutOfMemory>
        requires search { IsSearch graph.now target self.now }
        requires node { node < length graph.now.latest.items }
        requires found { IsFound self.now node }
        ensures { IfOk result (λ path. IsPath graph.now.from.items graph.now.to.items path.items node target) }
    {
        let mut path = Vec::new(alloc);
        let mut place = self.places[node].unwrap_or(0);
        while place > 0 {
            path.push(self.edges[place])?;
            place = self.onward[place];
        }
        Ok(path)
    }
}

/// The nodes from which a target is reached. It takes time linear in nodes and edges.
pub(crate) fn reaching(alloc: Global, graph: &Graph, target: usize) -> Result<Search, OutOfMemory>
    requires graph { IsGraph graph.now }
    requires target { target < length graph.now.latest.items }
    ensures search { IfOk result (IsSearch graph.now target) }
    ensures finds_all { IfOk result (FindsAll graph.now target) }
{
    let mut found = Search::new(alloc, graph, target)?;
    let mut done = 0;
    while done < found.nodes.len() {
        found.find_predecessors(graph, target, done)?;
        done += 1;
    }
    Ok(found)
}

/// Edges that lead, one after another, from a node to one that it reaches.
pub(crate) fn path_to(
    alloc: Global,
    graph: &Graph,
    target: usize,
    node: usize,
) -> Result<Vec<usize>, OutOfMemory>
    requires graph { IsGraph graph.now }
    requires target { target < length graph.now.latest.items }
    requires node { node < length graph.now.latest.items }
    requires reaches { Reaches graph.now node target }
    ensures { IfOk result (λ path. IsPath graph.now.from.items graph.now.to.items path.items node target) }
{
    let found = reaching(alloc, graph, target)?;
    found.path(alloc, graph, target, node)
}
