//! A graph of numbered nodes, in columns of numbers.
ghost use Rattle.std.specs.Prelude.{◌≡◌, ◌<◌, ◌++◌, [], ◌∷◌, length, OnOk, IfOk};
ghost use Rattle.relation_regions.specs.Graphs.{IsGraph};

use crate::rows::push_row;
use std::alloc::Global;
use term_enums::OutOfMemory;

/// Edges among numbered nodes. Those that lead to one node are found one after another, the latest first.
#[derive(Drop)]
pub(crate) struct Graph {
    /// Of each edge the node that it leads from.
    pub(crate) from: Vec<usize>,
    /// Of each edge the node that it leads to.
    pub(crate) to: Vec<usize>,
    /// Of each edge the one before it that leads to the same node, counted from 1; or 0.
    pub(crate) earlier: Vec<usize>,
    /// Of each node the latest edge that leads to it, counted from 1; or 0.
    pub(crate) latest: Vec<usize>,
}

impl Graph {
    /// A graph of so many nodes without edges.
    pub(crate) fn new(alloc: Global, nodes: usize) -> Result<Graph, OutOfMemory>
        ensures graph { IfOk result IsGraph }
        ensures nodes { IfOk result (λ g. length g.latest.items ≡ nodes) }
        ensures empty { IfOk result (λ g. (g.from.items ≡ []) × (g.to.items ≡ [])) }
    {
        Ok(Graph {
            from: Vec::new(alloc),
            to: Vec::new(alloc),
            earlier: Vec::new(alloc),
            latest: vec![in alloc; 0; nodes]?,
        })
    }

    /// Adds an edge behind those that are there. After `OutOfMemory` the graph is none any more.
    pub(crate) fn add(&mut self, from: usize, to: usize) -> Result<(), OutOfMemory>
        requires graph { IsGraph self.old }
        requires from { from < length self.old.latest.items }
        requires to { to < length self.old.latest.items }
        ensures graph { OnOk result (IsGraph self.new) }
        ensures nodes { length self.new.latest.items ≡ length self.old.latest.items }
        ensures added_from { OnOk result (self.new.from.items ≡ self.old.from.items ++ from ∷ []) }
        ensures added_to { OnOk result (self.new.to.items ≡ self.old.to.items ++ to ∷ []) }
    {
        let latest = self.latest[to];
        push_row(
            &mut self.from,
            &mut self.to,
            &mut self.earlier,
            from,
            to,
            latest,
        )?;
        self.latest[to] = self.to.len();
        Ok(())
    }
}
