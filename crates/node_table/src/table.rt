//! The table: how a node is found, and how one is added.
ghost use Rattle.std.specs.Prelude.{◌≡◌, ◌<◌, ◌⊎◌, ℕ, [], ◌∷◌, ◌++◌, length, slice_index_or, MatchOption};
ghost use Rattle.std.specs.Prelude.{IfOk, IsOk, OnOk, OnErr};
ghost use Rattle.node_table.specs.Finding.{Lacks, HasAt, AllUnequal};

use crate::next_number;
use indexmap::IndexSet;
use std::alloc::Global;
use std::hash::{BuildHasherDefault, Hash};
use std::marker::Model;
use term_enums::OutOfMemory;
use term_enums::hashing::KeyHasher;

/// Nodes, of which no two are equal. A node is found by a hashed table of numbers, in the time of one look-up, however
/// many there are.
#[derive(Drop)]
pub struct NodeTable<N: Eq + Hash> {
    // The nodes, by their numbers.
    nodes: IndexSet<N, BuildHasherDefault<KeyHasher>>,
}

impl<N: Eq + Hash> Model for NodeTable<N> {
    ghost use Rattle.std.specs.Prelude.{List, ◌≤◌, ◌^◌, length};
    ghost use Rattle.std.specs.Coded.{coded_list};

    ghost Value = { List N };

    ghost coded = { coded_list N.code };

    ghost view = { λ t. t.nodes.keys };

    ghost invariant = { λ t. length t.nodes.keys ≤ 2 ^ 32 };
}

impl<N: Eq + Hash + Drop> NodeTable<N> {
    /// A table without nodes. It takes no memory.
    pub fn new(alloc: Global) -> NodeTable<N>
        ensures { result ≡ [] }
    {
        NodeTable {
            nodes: IndexSet::with_hasher(alloc, BuildHasherDefault::new()),
        }
    }

    /// How many nodes there are.
    pub fn len(&self) -> usize
        ensures count { result ≡ length self.now }
        ensures each_once { AllUnequal N.eq self.now }
    {
        self.nodes.len()
    }

    /// The node of a number.
    #[inline(always)]
    pub fn node(&self, number: u32) -> &N
        requires { number < length self.now }
        ensures { result.now ≡ slice_index_or self.now number result.now }
    {
        &self.nodes.as_slice()[number as usize]
    }

    /// The number of the node that equals this one, where there is one.
    pub fn place(&self, node: &N) -> Option<u32>
        ensures { MatchOption result (Lacks N.eq self.now node.now) (HasAt N.eq self.now node.now) }
    {
        let index = self.nodes.get_index_of(node)?;
        Some(index as u32)
    }

    /// The number of the node that equals this one. Where there is none, this one is put at the end.
    ///
    /// # Errors
    /// `OutOfMemory` where a growth was refused, and where there are 2^32 nodes: then the table is as it was.
    pub fn intern(&mut self, node: N) -> Result<u32, OutOfMemory>
        ensures number { IfOk result (HasAt N.eq self.new node) }
        ensures there { (i : ℕ) → HasAt N.eq self.old node i → IsOk result × (self.new ≡ self.old) }
        ensures added { (self.new ≡ self.old) ⊎ (self.new ≡ self.old ++ node ∷ []) }
        ensures refused { OnErr result (self.new ≡ self.old) }
    {
        if self.nodes.len() > u32::MAX as usize {
            return self.place(&node).ok_or(OutOfMemory);
        }
        let (index, _) = self.nodes.insert_full(node)?;
        Ok(index as u32)
    }

    /// The number of a node that equals none. It is put at the end. All growths come before anything is written.
    ///
    /// # Errors
    /// `OutOfMemory` where a growth was refused, and where there are 2^32 nodes: then the table is as it was.
    pub fn put(&mut self, node: N) -> Result<u32, OutOfMemory>
        requires { Lacks N.eq self.old node }
        ensures number { IfOk result (λ n. n ≡ length self.old) }
        ensures added { OnOk result (self.new ≡ self.old ++ node ∷ []) }
        ensures refused { OnErr result (self.new ≡ self.old) }
    {
        let number = next_number(self.nodes.len())?;
        self.nodes.insert(node)?;
        Ok(number)
    }
}
