//! What follows from assumptions that terms outlive regions.
#![tactic(auto)]

ghost use Rattle.std.specs.Prelude.{IfOk};
ghost use Rattle.std.specs.List.{All};
ghost use Rattle.relation_terms.specs.Meaning.{Extends};
ghost use Rattle.outlives_assumptions.specs.Assumptions.{IsKnown, AreElaborated};

mod assuming;

use crate::assuming::add_assumption;
pub use crate::assuming::assumed_argument;
use relation_terms::predicate::OutlivesPredicate;
use relation_terms::terms::{GenericArg, Interner, Keys, OutOfMemory};
use std::collections::HashSet;

/// An assumption of an interner: a generic argument outlives a region.
pub type OutlivesAssumption<I> = OutlivesPredicate<<I as Keys>::Key, GenericArg<I>>;

/// The assumptions, and for each type among them its components that are regions, parameters, placeholders or aliases
/// that no variable escapes: each of them outlives what the type does.
///
/// The interner has to know all terms. Whether a binder binds an assumption's region is not asked. Answers
/// `OutOfMemory` where a growth was refused; all keys keep their meanings.
///
/// It comes from upstream's function of this name, which takes any iterator.
pub fn elaborate_outlives_assumptions<I: Interner>(
    cx: &mut I,
    assumptions: &[OutlivesAssumption<I>],
) -> Result<HashSet<OutlivesAssumption<I>>, OutOfMemory>
    requires { All (IsKnown (I.meaning cx.old)) assumptions.now }
    ensures grown { Extends (I.meaning cx.old) (I.meaning cx.new) }
    ensures sure { IfOk result (λ set. All (IsKnown (I.meaning cx.new)) set.keys) }
    ensures same { IfOk result (λ set. AreElaborated (I.meaning cx.old) (I.meaning cx.new) assumptions.now set.keys) }
{
    let mut collected = HashSet::new(cx.alloc());
    for assumption in assumptions {
        add_assumption(cx, assumption, &mut collected)?;
    }
    Ok(collected)
}
