//! The map.
ghost use Rattle.std.specs.Prelude.{◌≡◌, ◌+◌, ◌<◌, ◌≤◌, [], true, IfOk, OnOk, OnErr};
ghost use Rattle.std.specs.Option.{option_copied};
ghost use Rattle.std.specs.Map.{lookup};
ghost use Rattle.delayed_map.specs.Delayed.{TellsNewKey, PutsValue};

use crate::CACHE_CUTOFF;
use std::alloc::{Allocator, Global};
use std::collections::HashMap;
use std::hash::{BuildHasherDefault, Hash};
use std::marker::Model;
use term_enums::OutOfMemory;
use term_enums::hashing::KeyHasher;

/// A map that lets its first 32 insertions go, and keeps the later ones.
#[derive(Drop)]
pub struct DelayedMap<K: Eq + Hash, V, A: Allocator = Global> {
    cache: HashMap<K, V, BuildHasherDefault<KeyHasher>, A>,
    count: u32,
}

impl<K: Eq + Hash, V, A: Allocator> Model for DelayedMap<K, V, A> {
    ghost use Rattle.std.specs.Prelude.{◌≤◌};
    ghost use Rattle.std.specs.Coded.{coded×};
    ghost use Rattle.delayed_map.specs.Delayed.{Delayed, delayed_code};

    ghost Value = { Delayed (K × V) };

    ghost coded = { delayed_code (coded× K.code V.code) };

    ghost view = { λ m. record { ignored = m.count; kept = m.cache.entries } };

    ghost invariant = { λ m. m.count ≤ 32 };
}

impl<K: Eq + Hash + Drop, V: Drop, A: Allocator + Clone> DelayedMap<K, V, A> {
    /// A map that has let nothing go and keeps nothing. It takes no memory.
    pub fn new(alloc: A) -> Self
        ensures ignored { result.ignored ≡ 0 }
        ensures kept { result.kept ≡ [] }
    {
        DelayedMap {
            cache: HashMap::with_hasher(alloc, BuildHasherDefault::new()),
            count: 0,
        }
    }

    /// Lets the value go where fewer than 32 were let go, and keeps it for the key in place of an earlier one else.
    ///
    /// The answer says whether no value was kept for the key; one that is let go counts as new. An insertion that is
    /// let go takes no memory.
    ///
    /// # Errors
    /// `OutOfMemory` where a growth was refused: then the map is as it was.
    pub fn insert(&mut self, key: K, value: V) -> Result<bool, OutOfMemory>
        ensures early_counts { self.old.ignored < 32 → self.new.ignored ≡ self.old.ignored + 1 }
        ensures early_keeps { self.old.ignored < 32 → self.new.kept ≡ self.old.kept }
        ensures early_answer { self.old.ignored < 32 → result ≡ Ok true }
        ensures late_counts { 32 ≤ self.old.ignored → self.new.ignored ≡ self.old.ignored }
        ensures late_answer { 32 ≤ self.old.ignored → IfOk result (TellsNewKey K.eq key self.old) }
        ensures late_keeps { 32 ≤ self.old.ignored → OnOk result (PutsValue K.eq key value self.old self.new) }
        ensures err { OnErr result (self.new ≡ self.old) }
    {
        if self.count >= CACHE_CUTOFF {
            Ok(self.cache.insert(key, value)?.is_none())
        } else {
            self.count += 1;
            Ok(true)
        }
    }

    /// The value that was kept for a key.
    pub fn get(&self, key: &K) -> Option<&V>
        ensures value { option_copied result ≡ lookup (K.eq key.now) self.now.kept }
    {
        if self.cache.is_empty() {
            None
        } else {
            self.cache.get(key)
        }
    }
}
