//! Which elements were met.
ghost use Rattle.std.specs.Prelude.{◌≡◌, []};

use std::alloc::Global;
use std::collections::HashSet;
use std::hash::{BuildHasherDefault, Hash};
use term_enums::hashing::KeyHasher;

/// Elements that were met.
pub type Met<T> = HashSet<T, BuildHasherDefault<KeyHasher>>;

/// None was met yet.
pub fn none_met<T: Eq + Hash>(alloc: Global) -> Met<T>
    ensures { result.keys ≡ [] }
{
    HashSet::with_hasher(alloc, BuildHasherDefault::new())
}
