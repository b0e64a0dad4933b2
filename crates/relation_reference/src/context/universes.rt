//! The universes of a context, one behind another.
ghost use Rattle.std.specs.Prelude.{◌≡◌, suc, IfOk};

use relation_terms::terms::{OutOfMemory, UniverseIndex};

// The universe behind one. After `OutOfMemory` it cannot be counted.
pub(crate) fn next_universe(universe: UniverseIndex) -> Result<UniverseIndex, OutOfMemory>
    ensures { IfOk result (λ u. u.0 ≡ suc universe.0) }
{
    let next = universe.0.checked_add(1).ok_or(OutOfMemory)?;
    Ok(UniverseIndex(next))
}
