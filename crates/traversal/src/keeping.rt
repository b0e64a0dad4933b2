//! Keeping what was met in sets, which grow by more than a table does by itself.
ghost use Rattle.std.specs.Prelude.{◌≡◌, not, IfOk, OnOk};
ghost use Rattle.std.specs.Bool.{OnFalse};
ghost use Rattle.std.specs.List.{list_any};
ghost use Rattle.traversal.specs.Keeping.{Adds};

use delayed_map::widening::widen;
use std::collections::HashSet;
use std::hash::{BuildHasher, Hash};
use term_enums::OutOfMemory;

/// Keeps an element, and answers whether it was not kept before.
pub fn keep<T: Copy + Eq + Hash, S: BuildHasher>(
    set: &mut HashSet<T, S>,
    item: T,
) -> Result<bool, OutOfMemory>
    ensures new { IfOk result (λ new. new ≡ not (list_any (T.eq item) set.old.keys)) }
    ensures adds { OnOk result (Adds T.eq set.old.keys item set.new.keys) }
    ensures met { IfOk result (λ new. OnFalse new (set.new.keys ≡ set.old.keys)) }
{
    if !set.insert(item)? {
        return Ok(false);
    }
    let _ = widen(set);
    Ok(true)
}
