//! What is still to be yielded, and what was ever put there.
ghost use Rattle.std.specs.Prelude.{IsTrue};
ghost use Rattle.relation_terms.specs.Trees.{known};
ghost use Rattle.elaboration_worklist.specs.Kept.{IsKept, PushedOne};

use crate::elaboratable::Elaboratable;
use crate::faults::ElabFault;
use anonymize::anonymize_bound_vars;
use relation_terms::terms::{Interner, PredicateKey};
use std::collections::HashSet;
use std::hash::Hash;

/// What is still to be yielded, the last one next; the anonymised predicates of all that was ever put there, how many
/// of them there may be, and the name that they go by.
#[derive(Drop)]
pub struct Worklist<X: Eq + Hash, O, N> {
    pub stack: Vec<O>,
    pub visited: HashSet<PredicateKey<X>>,
    pub limit: usize,
    pub name: N,
}

/// A worklist of an interner.
pub type WorklistOf<I, O> = Worklist<
    <I as relation_terms::terms::Keys>::Key,
    O,
    <I as relation_terms::terms::Keys>::Name,
>;

/// Pushes a predicate, if none that is the same but for renaming was.
pub fn push_new<I: Interner, O: Elaboratable<I>>(
    cx: &mut I,
    list: &mut WorklistOf<I, O>,
    obligation: O,
) -> Result<(), ElabFault>
    requires known { IsTrue (known (O.tree (I.meaning cx.old) obligation)) }
    requires kept { IsKept O.tree (I.meaning cx.old) list.old }
    ensures { PushedOne I.meaning O.tree cx.old cx.new obligation list.old list.new result }
{
    let predicate = obligation.predicate(cx);
    let key = anonymize_bound_vars(cx, &predicate, list.name)?;
    if list.visited.contains(&key) {
        return Ok(());
    }
    if list.visited.len() >= list.limit {
        return Err(ElabFault::Limit);
    }
    list.stack.reserve(1)?;
    list.visited.insert(key)?;
    list.stack.push_reserved(obligation);
    Ok(())
}
