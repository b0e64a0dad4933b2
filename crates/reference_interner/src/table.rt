//! The nodes of an interner: how many there are, and how one is added.
ghost use Rattle.std.specs.Prelude.{◌≡◌, ◌<◌, ◌≤◌, ◌↔◌, ◌⊎◌, ℕ, suc, [], ◌∷◌, ◌++◌, MatchOption};
ghost use Rattle.std.specs.Prelude.{IsTrue, IfOk, IsOk, OnOk, OnErr};
ghost use Rattle.relation_terms.specs.Trees.{known, nil};
ghost use Rattle.relation_terms.specs.Meaning.{Extends};
ghost use Rattle.relation_terms.specs.Interning.{KeepsClauses};
ghost use Rattle.reference_interner.specs.Nodes.{entry_of, known_entry, table_meaning, StandsAt};
ghost use Rattle.node_table.specs.Finding.{Lacks};
ghost use Rattle.reference_interner.specs.Places.{HasKey};
ghost use Rattle.reference_interner.specs.Adding.{meaning_in, items_in, node_count, item_count};
ghost use Rattle.reference_interner.specs.Empty.{KnowsNone};

use crate::{Node, NodeKey, RefInterner};
use node_table::NodeTable;
use relation_terms::terms::{Interner, LocalDefIds, LocalDefIdsKey, OutOfMemory};
use std::alloc::Global;

impl RefInterner {
    /// An interner that knows no key and has no item. This takes no memory.
    pub fn new(alloc: Global) -> RefInterner
        ensures knows_none { KnowsNone (⟦<RefInterner as Interner>⟧.meaning result) }
        ensures no_items { item_count result ≡ 0 }
        ensures no_nodes { node_count result ≡ 0 }
    {
        RefInterner {
            alloc,
            nodes: NodeTable::new(alloc),
            items: Vec::new(alloc),
            flags: Vec::new(alloc),
            next_solver: false,
        }
    }

    /// How many nodes there are, of all sorts: types, regions, constants, value trees, patterns, lists and
    /// environments. They are numbered from zero, and each is one key's. This takes no memory.
    pub fn nodes(&self) -> usize
        ensures nodes { result ≡ node_count self.now }
        ensures numbers { (i : ℕ) → (i < result ↔ HasKey (meaning_in self.now) i) }
    {
        self.nodes.len()
    }

    // The key of the node, which is put at the end where it is new.
    pub(super) fn intern(&mut self, node: Node) -> Result<NodeKey, OutOfMemory>
        requires { IsTrue (known_entry (entry_of (table_meaning (items_in self.old) self.old.nodes) node)) }
        ensures number { let m = table_meaning (items_in self.old) self.old.nodes in
            IfOk result (λ k. StandsAt self.new.nodes k.0 (entry_of m node)) }
        ensures added { (self.new.nodes ≡ self.old.nodes) ⊎
            (self.new.nodes ≡ self.old.nodes ++ node ∷ []) }
        ensures refused { OnErr result (self.new.nodes ≡ self.old.nodes) }
        ensures there { let m = table_meaning (items_in self.old) self.old.nodes in
            (k : ℕ) → StandsAt self.old.nodes k (entry_of m node) →
            IsOk result × (self.new.nodes ≡ self.old.nodes) }
        ensures items { items_in self.new ≡ items_in self.old }
        ensures one_more { node_count self.new ≤ suc (node_count self.old) }
    {
        match self.nodes.place(&node) {
            Some(number) => Ok(NodeKey(number)),
            None => self.put(node),
        }
    }

    // The key of a node of a new form, which is put at the end. All growths come before anything is written.
    fn put(&mut self, node: Node) -> Result<NodeKey, OutOfMemory>
        requires known { let m = table_meaning (items_in self.old) self.old.nodes in
            IsTrue (known_entry (entry_of m node)) }
        requires new { Lacks ⟦<Node as PartialEq>⟧.eq self.old.nodes node }
        ensures number { let m = table_meaning (items_in self.old) self.old.nodes in
            IfOk result (λ k. StandsAt self.new.nodes k.0 (entry_of m node)) }
        ensures added { OnOk result (self.new.nodes ≡ self.old.nodes ++ node ∷ []) }
        ensures refused { OnErr result (self.new.nodes ≡ self.old.nodes) }
        ensures items { items_in self.new ≡ items_in self.old }
    {
        let flags = self.node_flags(&node);
        self.flags.reserve(1)?;
        let number = self.nodes.put(node)?;
        self.flags.push_reserved(flags);
        Ok(NodeKey(number))
    }

    /// The list without ids of items. No call reads a list of ids: the key is that of the list without clauses.
    ///
    /// # Errors
    /// `OutOfMemory` where a growth was refused.
    pub fn no_local_def_ids(&mut self) -> Result<LocalDefIds<Self>, OutOfMemory>
        ensures grown { Extends (meaning_in self.old) (meaning_in self.new) }
        ensures made { IfOk result (λ k. (meaning_in self.new).clauses (record { 0 = k.0 }) ≡ nil) }
        ensures refused { OnErr result (meaning_in self.new ≡ meaning_in self.old) }
        ensures there { KeepsClauses (meaning_in self.old) (meaning_in self.new) [] }
        ensures one_more { node_count self.new ≤ suc (node_count self.old) }
    {
        let clauses = self.mk_clauses(&[])?;
        Ok(LocalDefIdsKey(clauses.0))
    }
}
