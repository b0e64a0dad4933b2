//! What is stated of regions becomes facts, and the constraints of a context are solved where these hold.
ghost use Rattle.std.specs.Prelude.{◌≡◌, [], ◌∷◌, All, IfSome, IfOk};
ghost use Rattle.relation_semantics.specs.ContextCalls.{Grows};
ghost use Rattle.relation_regions.specs.Solving.{IsFactIn, IfMet, IfValued, IfUnmet};
ghost use Rattle.text_users.specs.Facts.{IsStated, facts_of, fact_of};
ghost use Rattle.text_users.specs.Solved.{KnowsSolved};
ghost use Rattle.text_users.specs.declared.regions.NotSolved.{NotSolved};

use relation_regions::{RecordedRegions, RegionOutlivesPredicate, Solved, is_fact, solve};
use relation_semantics::infer_ctxt::InferCtxtLike;
use relation_terms::predicate::OutlivesPredicate;
use relation_terms::terms::{GenericArgKind, Interner, Keys};
use term_enums::OutOfMemory;

/// A term outlives a region.
pub type StatedOutlives<X> = OutlivesPredicate<X, GenericArgKind<X>>;

/// Why it isn't answered whether regions can be as was recorded.
#[derive(Clone, Copy)]
pub enum NotSolved {
    /// A growth was refused.
    Memory,
    /// What is stated is no fact: it is not of regions of the context that are no variables.
    NoFact,
}

impl From<OutOfMemory> for NotSolved {
    ghost from_gives = { λ _ made. made ≡ NotSolved.Memory };

    fn from(_: OutOfMemory) -> NotSolved {
        NotSolved::Memory
    }
}

// The fact that is stated, if it is one.
fn fact_of<C: InferCtxtLike>(
    ctx: &C,
    stated: &StatedOutlives<<C::Interner as Keys>::Key>,
) -> Option<RegionOutlivesPredicate<<C::Interner as Keys>::Key>>
    requires { IsStated (C.state ctx.now).meaning stated.now }
    ensures is_fact { IfSome result (IsFactIn (C.state ctx.now)) }
    ensures stated { IfSome result (λ fact. fact_of stated.now ≡ fact ∷ []) }
{
    let GenericArgKind::Lifetime(longer) = stated.0 else {
        return None;
    };
    let fact = OutlivesPredicate(longer, stated.1);
    if is_fact(ctx, &fact) {
        return Some(fact);
    }
    None
}

// All facts that are stated.
fn facts_of<C: InferCtxtLike>(
    ctx: &C,
    stated: &[StatedOutlives<<C::Interner as Keys>::Key>],
) -> Result<Vec<RegionOutlivesPredicate<<C::Interner as Keys>::Key>>, NotSolved>
    requires { All (IsStated (C.state ctx.now).meaning) stated.now }
    ensures are_facts { IfOk result (λ facts. All (IsFactIn (C.state ctx.now)) facts.items) }
    ensures stated { IfOk result (λ facts. facts.items ≡ facts_of stated.now) }
{
    let mut facts = Vec::new(ctx.cx().alloc());
    for one in stated {
        let Some(fact) = fact_of(ctx, one) else {
            return Err(NotSolved::NoFact);
        };
        let Ok(()) = facts.push(fact) else {
            return Err(NotSolved::Memory);
        };
    }
    Ok(facts)
}

/// Whether the regions of a context can be as it has recorded, where of given regions nothing holds but what follows of
/// what is stated; the interner has to know its terms. Nothing is recorded. It is what `relation_regions::solve` answers.
///
/// # Errors
/// `NoFact` where a variable is stated to outlive a region or to be outlived, what a binder outside binds, or a
/// placeholder that the context's universe doesn't name, or where a term that is stated to outlive is no region.
/// `Memory` where a growth was refused.
#[tactic(auto, using(relation_terms::proofs::Stays::stays_same))]
pub fn ask_solved<C: RecordedRegions>(
    ctx: &mut C,
    stated: &[StatedOutlives<<C::Interner as Keys>::Key>],
) -> Result<Solved<<C::Interner as Keys>::Key>, NotSolved>
    requires lawful { (C.state ctx.old).lawful }
    requires stated { All (IsStated (C.state ctx.old).meaning) stated.now }
    ensures grows { Grows (C.state ctx.old) (C.state ctx.new) }
    ensures same_record { (C.state ctx.new).store ≡ (C.state ctx.old).store }
    ensures met { IfOk result (IfMet (C.state ctx.new) (facts_of stated.now)) }
    ensures least { IfOk result (IfValued (C.state ctx.new) (facts_of stated.now)) }
    ensures unmet { IfOk result (IfUnmet (C.state ctx.new) (facts_of stated.now)) }
    ensures known { IfOk result (KnowsSolved (C.state ctx.new).meaning) }
{
    let facts = facts_of(ctx, stated)?;
    let solved = solve(ctx, &facts)?;
    Ok(solved)
}
