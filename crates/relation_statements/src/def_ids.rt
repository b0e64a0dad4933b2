//! The traits that follow from a trait by super-predicates, without their arguments.
ghost use Rattle.std.specs.Prelude.{◌≡◌, ◌∷◌, [], IsTrue, IfOk, OnOk};
ghost use Rattle.std.specs.List.{filter_map};
ghost use Rattle.relation_terms.specs.Trees.{known};
ghost use Rattle.relation_statements.specs.Statements.{statements};
ghost use Rattle.relation_statements.specs.Reach.{ByReach, Goes, Spreads, supers_named, number, numbers};
ghost use Rattle.relation_statements.specs.TraitClauses.{trait_named};

use crate::trait_clauses::trait_reference;
use relation_terms::terms::{Clause, Interner, OutOfMemory, TraitId};
use std::collections::HashSet;
use std::marker::Model;

/// The traits that are reached from a trait by super-predicates, each once: the last that was found first. Where a
/// growth was refused it yields `OutOfMemory`, then and at each later call.
#[derive(Drop)]
pub struct SupertraitDefIds<'a, I: Interner> {
    cx: &'a I,
    stack: Vec<TraitId<I::Id>>,
    reached: HashSet<TraitId<I::Id>>,
    failed: bool,
}

impl<'a, I: Interner> Model for SupertraitDefIds<'a, I> {
    ghost use Rattle.relation_statements.specs.Reach.{Reaching, numbers};

    ghost Value = { Reaching I };

    ghost view = { λ s. record {
      cx = s.cx.now;
      stack = numbers (I.meaning s.cx.now) s.stack.items;
      reached = numbers (I.meaning s.cx.now) s.reached.keys;
      failed = s.failed;
    } };
}

/// A trait, and the traits that the trait clauses among its super-predicates are of, in any polarity, and those among
/// theirs, each once. Their arguments are not looked at, so it ends on every input.
///
/// Answers `OutOfMemory` where a growth was refused. Upstream's function of this name.
pub fn supertrait_def_ids<I: Interner>(
    cx: &I,
    trait_id: TraitId<I::Id>,
) -> Result<SupertraitDefIds<'_, I>, OutOfMemory>
    ensures cx { IfOk result (λ s. s.cx ≡ cx.now) }
    ensures begins { IfOk result (λ s. s.stack ≡ number (I.meaning cx.now) trait_id ∷ []) }
    ensures by_reach { IfOk result (ByReach I.meaning (number (I.meaning cx.now) trait_id)) }
{
    let mut stack = Vec::new(cx.alloc());
    stack.push(trait_id)?;
    let mut reached = HashSet::new(cx.alloc());
    reached.insert(trait_id)?;
    Ok(SupertraitDefIds {
        cx,
        stack,
        reached,
        failed: false,
    })
}

// Puts the trait there that a clause is of, if it was not reached.
fn reach<I: Interner>(
    cx: &I,
    clause: &Clause<I>,
    stack: &mut Vec<TraitId<I::Id>>,
    reached: &mut HashSet<TraitId<I::Id>>,
) -> Result<(), OutOfMemory>
    requires { IsTrue (known ((I.meaning cx.now).clause clause.now)) }
    ensures { let m = I.meaning cx.now in OnOk result (Spreads (filter_map trait_named (m.clause clause.now ∷ []))
        (numbers m stack.old.items) (numbers m reached.old.keys) (numbers m stack.new.items)
        (numbers m reached.new.keys)) }
{
    let Some(trait_ref) = trait_reference(cx, clause) else {
        return Ok(());
    };
    let trait_id = trait_ref.value.def_id;
    if !reached.insert(trait_id)? {
        return Ok(());
    }
    stack.push(trait_id)?;
    Ok(())
}

// Puts the traits there that a trait's super-predicates are of.
fn reach_supers<I: Interner>(
    cx: &I,
    trait_id: &TraitId<I::Id>,
    stack: &mut Vec<TraitId<I::Id>>,
    reached: &mut HashSet<TraitId<I::Id>>,
) -> Result<(), OutOfMemory>
    ensures { let m = I.meaning cx.now in OnOk result (Spreads (supers_named (statements m) (number m trait_id.now))
        (numbers m stack.old.items) (numbers m reached.old.keys) (numbers m stack.new.items)
        (numbers m reached.new.keys)) }
{
    let supers = cx.explicit_super_predicates_of(trait_id);
    for stated in supers {
        reach(cx, &stated.0, stack, reached)?;
    }
    Ok(())
}

impl<'a, I: Interner> SupertraitDefIds<'a, I> {
    /// What `next` answers, for a loop of which the caller shows that it ends.
    pub fn pull(&mut self) -> Option<Result<TraitId<I::Id>, OutOfMemory>>
        ensures steps { Goes I.meaning self.old result self.new }
    {
        if self.failed {
            return Some(Err(OutOfMemory));
        }
        let trait_id = self.stack.pop()?;
        match reach_supers(self.cx, &trait_id, &mut self.stack, &mut self.reached) {
            Ok(()) => Some(Ok(trait_id)),
            Err(refused) => {
                self.failed = true;
                Some(Err(refused))
            }
        }
    }
}

impl<'a, I: Interner> Iterator for SupertraitDefIds<'a, I> {
    type Item = Result<TraitId<I::Id>, OutOfMemory>;

    ghost next_gives = { λ s r t. Goes I.meaning s r t };

    fn next(&mut self) -> Option<Result<TraitId<I::Id>, OutOfMemory>> {
        self.pull()
    }
}
