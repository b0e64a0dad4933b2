//! The table of classes.
ghost use Rattle.std.specs.Prelude.{◌≡◌, ◌≤◌, ◌<◌, [], ◌∷◌, ◌++◌, length, if◌then◌else◌, OnOk, IfOk, is_ok};
ghost use Rattle.variable_classes.specs.Roots.{root_in, joined_roots, IsRootTable};

use crate::members::{Member, alone, join};
use std::alloc::Global;
use std::marker::Model;
use term_enums::OutOfMemory;

/// Classes of the numbers from 0 on. The root of a number is the smallest that it was made one with.
#[derive(Drop)]
pub struct VariableClasses {
    members: Vec<Member>,
}

impl Model for VariableClasses {
    ghost use Rattle.std.specs.Prelude.{◌-◌};
    ghost use Rattle.std.specs.Vec.{vec_len, vec_capacity};
    ghost use Rattle.variable_classes.specs.Roots.{Roots};
    ghost use Rattle.variable_classes.specs.Rings.{roots_of, AreRings};

    ghost Value = { Roots };

    ghost view = { λ c. record { items = roots_of c.members.items; spare = vec_capacity c.members - vec_len c.members } };

    ghost invariant = { λ c. AreRings c.members.items };
}

impl VariableClasses {
    /// A table without numbers. It takes no memory.
    pub fn new(alloc: Global) -> VariableClasses
        ensures items { result.items ≡ [] }
    {
        VariableClasses {
            members: Vec::new(alloc),
        }
    }

    /// The same classes, in memory of their own.
    ///
    /// # Errors
    /// `OutOfMemory` where a growth was refused.
    pub fn copied(&self, alloc: Global) -> Result<VariableClasses, OutOfMemory>
        ensures items { IfOk result (λ c. c.items ≡ self.now.items) }
    {
        let mut members = Vec::new(alloc);
        members.extend_from_slice(&self.members)?;
        Ok(VariableClasses { members })
    }

    /// How many numbers there are.
    pub fn len(&self) -> usize
        ensures count { result ≡ length self.now.items }
        ensures rooted { IsRootTable self.now.items }
    {
        self.members.len()
    }

    /// The root of a number.
    #[inline(always)]
    pub fn root(&self, number: usize) -> usize
        requires { number < length self.now.items }
        ensures is { result ≡ root_in self.now.items number }
        ensures own { root_in self.now.items result ≡ result }
        ensures below { result ≤ number }
    {
        self.members[self.members[number].of].least
    }

    /// Makes room for one more number.
    ///
    /// # Errors
    /// `OutOfMemory` where a growth was refused: then the table is as it was.
    pub fn reserve(&mut self) -> Result<(), OutOfMemory>
        ensures items { self.new.items ≡ self.old.items }
        ensures room { OnOk result (0 < self.new.spare) }
    {
        self.members.reserve(1)?;
        Ok(())
    }

    /// Puts the next number at the end, in a class of its own. There is room for it.
    pub fn push_reserved(&mut self)
        requires { 0 < self.old.spare }
        ensures items { self.new.items ≡ self.old.items ++ length self.old.items ∷ [] }
    {
        let number = self.members.len();
        self.members.push_reserved(alone(number));
    }

    /// Puts the next number at the end, in a class of its own.
    ///
    /// # Errors
    /// `OutOfMemory` where a growth was refused: then the table is as it was.
    pub fn push(&mut self) -> Result<(), OutOfMemory>
        ensures items { self.new.items ≡
            (if is_ok result then self.old.items ++ length self.old.items ∷ [] else self.old.items) }
    {
        self.reserve()?;
        self.push_reserved();
        Ok(())
    }

    /// Makes the classes of two numbers one: the smaller of both roots is that of all members. Where they are one
    /// already, nothing changes. It takes no memory.
    pub fn join(&mut self, a: usize, b: usize)
        requires a_in { a < length self.old.items }
        requires b_in { b < length self.old.items }
        ensures { self.new.items ≡ joined_roots a b self.old.items }
    {
        join(&mut self.members, a, b);
    }
}
