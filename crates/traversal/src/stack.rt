//! A stack whose first eight elements need no memory.
ghost use Rattle.std.specs.Prelude.{◌≡◌, ◌-◌, [], ◌∷◌, length, drop, MatchOption, OnOk, OnErr};

use smallvec::SmallVec;
use std::alloc::{AllocError, Global};
use std::marker::Model;

/// A stack, seen as the list of its elements from the top down.
#[derive(Drop)]
pub struct Stack<T> {
    places: SmallVec<Option<T>, 8>,
}

impl<T> Model for Stack<T> {
    ghost use Rattle.std.specs.Prelude.{List, reverse};
    ghost use Rattle.traversal.specs.Stacks.{present, IsFilled};

    ghost Value = { List T };

    ghost view = { λ s. reverse (present s.places.items) };

    ghost invariant = { λ s. IsFilled s.places.items };
}

impl<T: Drop> Stack<T> {
    /// A stack of one element, which takes no memory.
    pub fn one(alloc: Global, item: T) -> Self
        ensures { result ≡ item ∷ [] }
    {
        let mut places = SmallVec::new(alloc);
        places.push_reserved(Some(item));
        Stack { places }
    }

    /// How many elements there are.
    pub fn len(&self) -> usize
        ensures { result ≡ length self.now }
    {
        self.places.len()
    }

    /// Puts an element on top.
    #[inline(always)]
    pub fn push(&mut self, item: T) -> Result<(), AllocError>
        ensures ok { OnOk result (self.new ≡ item ∷ self.old) }
        ensures err { OnErr result (self.new ≡ self.old) }
    {
        self.places.push(Some(item))?;
        Ok(())
    }

    /// Takes the top element off.
    #[inline(always)]
    pub fn pop(&mut self) -> Option<T>
        ensures { MatchOption result ((self.old ≡ []) × (self.new ≡ [])) (λ item. self.old ≡ item ∷ self.new) }
    {
        self.places.pop().flatten()
    }

    /// Takes elements off until at most so many are left.
    pub fn truncate(&mut self, len: usize)
        ensures { self.new ≡ drop (length self.old - len) self.old }
    {
        self.places.truncate(len);
    }
}
