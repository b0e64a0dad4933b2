//! The set.
ghost use Rattle.std.specs.Prelude.{◌≡◌, ◌+◌, ◌<◌, ◌≤◌, [], true, ◌⊎◌, Contains, IfOk, OnOk, OnErr};
ghost use Rattle.std.specs.List.{list_any};
ghost use Rattle.delayed_map.specs.Delayed.{TellsNew, PutsMember};

use crate::CACHE_CUTOFF;
use crate::widening::widen;
use std::alloc::{Allocator, Global};
use std::collections::HashSet;
use std::hash::{BuildHasherDefault, Hash};
use std::marker::Model;
use term_enums::OutOfMemory;
use term_enums::hashing::KeyHasher;

/// A set that lets its first 32 insertions go, and keeps the later ones.
#[derive(Drop)]
pub struct DelayedSet<T: Eq + Hash, A: Allocator = Global> {
    cache: HashSet<T, BuildHasherDefault<KeyHasher>, A>,
    count: u32,
}

impl<T: Eq + Hash, A: Allocator> Model for DelayedSet<T, A> {
    ghost use Rattle.std.specs.Prelude.{◌≤◌};
    ghost use Rattle.delayed_map.specs.Delayed.{Delayed, delayed_code};

    ghost Value = { Delayed T };

    ghost coded = { delayed_code T.code };

    ghost view = { λ m. record { ignored = m.count; kept = m.cache.keys } };

    ghost invariant = { λ m. m.count ≤ 32 };
}

impl<T: Eq + Hash + Drop, A: Allocator + Clone> DelayedSet<T, A> {
    /// A set that has let nothing go and keeps nothing. It takes no memory.
    pub fn new(alloc: A) -> Self
        ensures ignored { result.ignored ≡ 0 }
        ensures kept { result.kept ≡ [] }
    {
        DelayedSet {
            cache: HashSet::with_hasher(alloc, BuildHasherDefault::new()),
            count: 0,
        }
    }

    /// Lets the value go where fewer than 32 were let go, and keeps it else, unless an equal one is kept.
    ///
    /// The answer says whether no equal one was kept; one that is let go counts as new. An insertion that is let go
    /// takes no memory.
    ///
    /// # Errors
    /// `OutOfMemory` where a growth was refused: then the set is as it was.
    pub fn insert(&mut self, value: T) -> Result<bool, OutOfMemory>
        ensures early_counts { self.old.ignored < 32 → self.new.ignored ≡ self.old.ignored + 1 }
        ensures early_keeps { self.old.ignored < 32 → self.new.kept ≡ self.old.kept }
        ensures early_answer { self.old.ignored < 32 → result ≡ Ok true }
        ensures late_counts { 32 ≤ self.old.ignored → self.new.ignored ≡ self.old.ignored }
        ensures late_answer { 32 ≤ self.old.ignored → IfOk result (TellsNew T.eq value self.old) }
        ensures late_keeps { 32 ≤ self.old.ignored → OnOk result (PutsMember T.eq value self.old self.new) }
        ensures members { (e : T) → Contains self.new.kept e → (e ≡ value) ⊎ Contains self.old.kept e }
        ensures err { OnErr result (self.new ≡ self.old) }
    {
        if self.count >= CACHE_CUTOFF {
            let is_new = self.cache.insert(value)?;
            let _ = widen(&mut self.cache);
            Ok(is_new)
        } else {
            self.count += 1;
            Ok(true)
        }
    }

    /// Whether a value that is equal was kept.
    pub fn contains(&self, value: &T) -> bool
        ensures { result ≡ list_any (T.eq value.now) self.now.kept }
    {
        !self.cache.is_empty() && self.cache.contains(value)
    }
}
