//! In which order a visitor goes over parts: an order of places.
ghost use Rattle.std.specs.Prelude.{◌≡◌, ◌<◌};
ghost use Rattle.relation_terms.specs.Orders.{place_at, list_order};

use crate::terms::Parts;

/// The place of the part that a visitor of a list of `count` parts comes to behind `step` others. It is `step`, unless
/// the list is that of a projection: the visitor comes to its arguments before its term.
///
/// The step has to be below the count, and so is the place.
pub fn visited_place<X: Copy, D: Copy>(parts: &Parts<X, D>, count: usize, step: usize) -> usize
    requires { step < count }
    ensures in_bounds { result < count }
    ensures place { result ≡ place_at (list_order parts.now) count step }
{
    match parts {
        Parts::TermArgs(..) if step + 1 == count => 0,
        Parts::TermArgs(..) => step + 1,
        _ => step,
    }
}
