//! Where a walk in pre-order stands: what is still to come, and what was visited.
ghost use Rattle.std.specs.Prelude.{◌≡◌, ◌-◌, ◌∷◌, [], IfOk, MatchOption, drop, length};
ghost use Rattle.traversal.specs.Unseen.{Pops};

use crate::keeping::keep;
use crate::met::{Met, none_met};
use crate::stack::Stack;
use std::alloc::Global;
use std::hash::Hash;
use term_enums::OutOfMemory;

/// Where a walk in pre-order stands, which enters each element once.
#[derive(Drop)]
pub struct PreOrder<T: Eq + Hash> {
    /// What is still to come: on top what stands under the element that came last.
    pub stack: Stack<T>,
    /// How many elements of the stack come after what stands under the element that came last.
    pub last_subtree: usize,
    /// The elements that came.
    pub visited: Met<T>,
}

impl<T: Copy + Drop + Eq + Hash> PreOrder<T> {
    /// A walk that begins at an element. It takes no memory.
    pub fn new(alloc: Global, root: T) -> Self
        ensures stack { result.stack ≡ root ∷ [] }
        ensures last_subtree { result.last_subtree ≡ 1 }
        ensures visited { result.visited.keys ≡ [] }
    {
        PreOrder {
            stack: Stack::one(alloc, root),
            last_subtree: 1,
            visited: none_met(alloc),
        }
    }

    /// The first element that was not visited, which leaves the stack with all above it, and was visited from then on.
    pub fn next_unseen(&mut self) -> Result<Option<T>, OutOfMemory>
        ensures pops { IfOk result (λ popped.
            Pops T.eq self.old.visited.keys self.old.stack popped self.new.stack self.new.visited.keys) }
        ensures last_subtree { IfOk result (λ popped. MatchOption popped
            (self.new.last_subtree ≡ self.old.last_subtree)
            (λ _. self.new.last_subtree ≡ length self.new.stack)) }
    {
        while let Some(item) = self.stack.pop() {
            if keep(&mut self.visited, item)? {
                self.last_subtree = self.stack.len();
                return Ok(Some(item));
            }
        }
        Ok(None)
    }

    /// Leaves out what stands under the element that came last, as far as it is still to come. It takes no memory.
    pub fn skip_current_subtree(&mut self)
        ensures stack { self.new.stack ≡ drop (length self.old.stack - self.old.last_subtree) self.old.stack }
        ensures last_subtree { self.new.last_subtree ≡ self.old.last_subtree }
        ensures visited { self.new.visited ≡ self.old.visited }
    {
        self.stack.truncate(self.last_subtree);
    }
}
