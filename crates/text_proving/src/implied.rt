//! Clauses, and what they imply by what traits state.
ghost use Rattle.std.specs.Prelude.{◌≡◌, false, IfOk, [], map};
ghost use Rattle.std.specs.List.{All};
ghost use Rattle.relation_terms.specs.Meaning.{Extends};
ghost use Rattle.relation_statements.specs.Children.{mode_of};
ghost use Rattle.relation_statements.specs.Statements.{statements};
ghost use Rattle.text_proving.specs.Implied.{IsClosure, PullsToEnd};
ghost use Rattle.text_proving.specs.Made.{KnowsClause};

use relation_terms::terms::{Clause, Interner};
use relation_tools::elaborate::Elaborator;
use relation_tools::error::ElabFault;

/// How many different clauses there may be, with what they imply.
pub const LIMIT: usize = 1_000;

// All that is left of an elaboration.
#[tactic(auto, using(relation_terms::proofs::Stays::stays_same))]
fn pull_all<I: Interner>(
    elaborator: &mut Elaborator<'_, I, Clause<I>>,
) -> Result<Vec<Clause<I>>, ElabFault>
    ensures same_reference { elaborator.new.reference ≡ elaborator.old.reference }
    ensures grown { Extends (I.meaning elaborator.old.cx) (I.meaning elaborator.new.cx) }
    ensures sure { IfOk result (λ all. All (KnowsClause (I.meaning elaborator.new.cx)) all.items) }
    ensures runs { IfOk result (λ all. PullsToEnd I.meaning elaborator.old all.items elaborator.new) }
{
    let mut all = Vec::new(elaborator.cx().alloc());
    for _ in 0..LIMIT + 1 {
        match elaborator.pull() {
            Some(Ok(clause)) => all.push(clause)?,
            Some(Err(fault)) => return Err(fault),
            None => return Ok(all),
        }
    }
    Err(ElabFault::Limit)
}

// All that an elaboration yields that is given these clauses, and had none yet.
fn pull_given<I: Interner>(
    elaborator: &mut Elaborator<'_, I, Clause<I>>,
    given: Vec<Clause<I>>,
) -> Result<Vec<Clause<I>>, ElabFault>
    requires known { All (KnowsClause (I.meaning elaborator.old.cx)) given.items }
    requires stack { elaborator.old.stack ≡ [] }
    requires visited { elaborator.old.visited ≡ [] }
    requires mode { elaborator.old.mode ≡ mode_of false false }
    ensures same_reference { elaborator.new.reference ≡ elaborator.old.reference }
    ensures grown { Extends (I.meaning elaborator.old.cx) (I.meaning elaborator.new.cx) }
    ensures sure { IfOk result (λ all. All (KnowsClause (I.meaning elaborator.new.cx)) all.items) }
    ensures closure { let m = I.meaning elaborator.old.cx in let n = I.meaning elaborator.new.cx in
        IfOk result (λ all. IsClosure (statements m) (map m.clause given.items) (map n.clause all.items)) }
{
    elaborator.extend_deduped(given)?;
    pull_all(elaborator)
}

/// Clauses, and all that they imply by what traits state, each once. The interner has to know the clauses.
///
/// # Errors
/// `Limit` where there are more different ones than `LIMIT`, and `Memory` where a growth was refused. All keys keep
/// their meanings.
#[tactic(auto, using(relation_terms::proofs::Stays::stays_same))]
pub fn closure_of<I: Interner>(
    cx: &mut I,
    clauses: &[Clause<I>],
) -> Result<Vec<Clause<I>>, ElabFault>
    requires { All (KnowsClause (I.meaning cx.old)) clauses.now }
    ensures grown { Extends (I.meaning cx.old) (I.meaning cx.new) }
    ensures sure { IfOk result (λ all. All (KnowsClause (I.meaning cx.new)) all.items) }
    ensures closure { let m = I.meaning cx.old in let n = I.meaning cx.new in
        IfOk result (λ all. IsClosure (statements m) (map m.clause clauses.now) (map n.clause all.items)) }
{
    let mut given = Vec::new(cx.alloc());
    given.extend_from_slice(clauses)?;
    let mut elaborator = Elaborator::new(cx, LIMIT);
    let all = pull_given(&mut elaborator, given);
    let _ = elaborator.into_cx();
    all
}
