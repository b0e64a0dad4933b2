//! Which types and constants were met.
ghost use Rattle.std.specs.Prelude.{◌≡◌, []};
ghost use Rattle.std.specs.Map.{keys_of};

use delayed_map::kept::KeptMap;
use relation_terms::terms::{GenericArg, Interner};

/// Types and constants that were met.
pub type Met<I> = KeptMap<GenericArg<I>, ()>;

/// None was met yet.
pub fn none_met<I: Interner>(cx: &I) -> Met<I>
    ensures { keys_of result ≡ [] }
{
    KeptMap::new(cx.alloc())
}
