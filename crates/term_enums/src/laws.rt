//! Laws of polarities and of the constness of bounds. Each function does nothing, and its contract is the law.
ghost use Rattle.std.specs.Prelude.{◌≡◌, IsTrue};
ghost use Rattle.std.specs.declared.cmp.Ordering.TheVariants.{Less};
ghost use Rattle.term_enums.specs.Polarities.{flipped, satisfied};
ghost use Rattle.term_enums.specs.declared.ImplPolarity.TheVariants as impl_polarity;
ghost use Rattle.term_enums.specs.declared.PredicatePolarity.{PredicatePolarity as Polarity};
ghost use Rattle.term_enums.specs.declared.PredicatePolarity.TheVariants as polarity;
ghost use Rattle.term_enums.specs.declared.BoundConstness.{BoundConstness as Constness};

use crate::{ImplPolarity, PredicatePolarity};

/// The order of polarities: positive, negative, reservation.
pub fn order()
    ensures negative { ⟦<ImplPolarity as Ord>⟧.cmp impl_polarity.Positive impl_polarity.Negative ≡ Less }
    ensures reservation { ⟦<ImplPolarity as Ord>⟧.cmp impl_polarity.Negative impl_polarity.Reservation ≡ Less }
    ensures of_predicates { ⟦<PredicatePolarity as Ord>⟧.cmp polarity.Positive polarity.Negative ≡ Less }
{}

/// The other polarity of the other one is the polarity itself.
pub fn polarities()
    ensures flipped_twice { (p : Polarity) → flipped (flipped p) ≡ p }
{}

/// A bound satisfies itself, and what the one that it satisfies does.
pub fn constness()
    ensures reflexive { (a : Constness) → IsTrue (satisfied a a) }
    ensures chains { (a b c : Constness) → IsTrue (satisfied a b) → IsTrue (satisfied b c) → IsTrue (satisfied a c) }
{}
