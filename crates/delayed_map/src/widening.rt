//! Sets and maps that grow by more than a table does by itself.
ghost use Rattle.std.specs.Prelude.{◌≡◌, ◌≤◌, Contains, OnOk};
ghost use Rattle.std.specs.HashMap.{get, spare as map_spare};
ghost use Rattle.std.specs.HashSet.{spare};
ghost use Rattle.std.specs.List.{list_any};

use std::alloc::Allocator;
use std::collections::{HashMap, HashSet};
use std::hash::{BuildHasher, Hash};
use term_enums::OutOfMemory;

// The least number of elements that a full table makes room for: by itself it has room for nine at first.
const LEAST: usize = 63;

/// Makes a full set four times as large, so that its elements are seldom put anew. Then it has room for one more.
///
/// # Errors
/// `OutOfMemory` where that is refused: the set keeps what it did, and asks for less when the next element comes.
pub fn widen<T: Eq + Hash, S: BuildHasher, A: Allocator + Clone>(
    set: &mut HashSet<T, S, A>,
) -> Result<(), OutOfMemory>
    ensures finds { (q : T) → list_any (T.eq q) set.new.keys ≡ list_any (T.eq q) set.old.keys }
    ensures room { OnOk result (1 ≤ spare set.new) }
    ensures members { (e : T) → Contains set.new.keys e → Contains set.old.keys e }
{
    let len = set.len();
    if len == set.capacity() {
        set.reserve(len.saturating_mul(3).max(LEAST))?;
    }
    Ok(())
}

/// Makes a full map four times as large, so that its entries are seldom put anew. Then it has room for one more.
///
/// # Errors
/// `OutOfMemory` where that is refused: the map keeps what it did, and asks for less when the next entry comes.
#[inline(always)]
pub fn widen_map<K: Eq + Hash, V, S: BuildHasher, A: Allocator + Clone>(
    map: &mut HashMap<K, V, S, A>,
) -> Result<(), OutOfMemory>
    ensures finds { (q : K) → get K.eq map.new q ≡ get K.eq map.old q }
    ensures room { OnOk result (1 ≤ map_spare map.new) }
{
    let len = map.len();
    if len == map.capacity() {
        map.reserve(len.saturating_mul(3).max(LEAST))?;
    }
    Ok(())
}
