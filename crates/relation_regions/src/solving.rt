//! Solving: can the regions of a context be as it has recorded?
ghost use Rattle.std.specs.Prelude.{◌≡◌, ◌<◌, All, length, get_or, map, IfOk, OnOk};
ghost use Rattle.relation_semantics.specs.Constraints.{constraint_of};
ghost use Rattle.relation_semantics.specs.ContextCalls.{Grows, KeepsMarks};
ghost use Rattle.relation_regions.specs.Worlds.{static};
ghost use Rattle.relation_regions.specs.Reading.{IsEmpty, ReadsProblem};
ghost use Rattle.relation_regions.specs.Numbered.{AreWithin, IsAnswer};
ghost use Rattle.relation_regions.specs.Solving.{IsFactIn, IfMet, IfValued, IfUnmet, IsAnswered};

use crate::building::Pairs;
use crate::numbered::{self, Decision};
use crate::numbering::{number, region_at, regions_of};
use crate::reading::{NumberedPairs, read_constraints, read_facts, standings_of};
use crate::standing::Standing;
use kept_records::RecordedRegions;
use node_table::NodeTable;
use relation_semantics::infer_ctxt::InferCtxtLike;
use relation_terms::predicate::{OutlivesPredicate, RegionConstraint};
use relation_terms::terms::{Interner, Keys, Region, RegionKey, RegionKind};
use std::alloc::Global;
use std::hash::Hash;
use term_enums::OutOfMemory;

/// A region outlives another one.
pub type RegionOutlivesPredicate<X> = OutlivesPredicate<X, RegionKey<X>>;

/// Whether regions can be as it was recorded, where of given regions nothing holds but what is known.
#[derive(Drop)]
pub enum Solved<X: Copy> {
    /// They can. Of each variable the given regions that it has to outlive.
    Met(Vec<OutlivesPredicate<X, RegionKey<X>>>),
    /// They can't: the constraints with these numbers make a given region outlive another one, though that isn't known.
    Unmet {
        longer: RegionKey<X>,
        shorter: RegionKey<X>,
        by: Vec<usize>,
    },
}

/// Constraints and facts, as pairs of numbered regions.
#[derive(Drop)]
struct Problem<X: Eq + Hash> {
    regions: NodeTable<RegionKey<X>>,
    asked: NumberedPairs,
    known: NumberedPairs,
}

impl<X: Copy + Eq + Hash> Problem<X> {
    // No regions, and no pairs.
    fn new(alloc: Global) -> Self
        ensures { let p = result in IsEmpty p.regions p.asked.pairs p.asked.asked_by.items p.known.pairs
            p.known.asked_by.items }
    {
        Problem {
            regions: NodeTable::new(alloc),
            asked: NumberedPairs {
                pairs: Pairs::new(alloc),
                asked_by: Vec::new(alloc),
            },
            known: NumberedPairs {
                pairs: Pairs::new(alloc),
                asked_by: Vec::new(alloc),
            },
        }
    }
}

// What asks for the pairs at these places.
fn asked_by(
    alloc: Global,
    pairs: &NumberedPairs,
    places: &[usize],
) -> Result<Vec<usize>, OutOfMemory>
    requires { All (λ k. k < length pairs.now.asked_by.items) places.now }
    ensures { IfOk result (λ by. by.items ≡ map (λ k. get_or pairs.now.asked_by.items k 0) places.now) }
{
    let mut by = Vec::new(alloc);
    for place in places {
        by.push(pairs.asked_by[*place])?;
    }
    Ok(by)
}

// Whether numbered regions can be as it is asked, by the regions that have the numbers.
fn answer<X: Copy + Eq + Hash>(
    alloc: Global,
    problem: &Problem<X>,
    standings: &[Standing],
) -> Result<Solved<X>, OutOfMemory>
    requires { let p = problem.now in
        AreWithin p.regions standings.now p.asked.pairs p.asked.asked_by.items p.known.pairs }
    ensures { let p = problem.now in IfOk result
        (IsAnswer p.regions standings.now p.asked.pairs p.asked.asked_by.items p.known.pairs) }
{
    match numbered::solve(alloc, standings, &problem.asked.pairs, &problem.known.pairs)? {
        Decision::Met(values) => {
            // So that those of one variable stand together.
            let mut values = values;
            values.sort_unstable();
            let values = regions_of(alloc, &problem.regions, values.as_slice())?;
            Ok(Solved::Met(values))
        }
        Decision::Unmet {
            longer,
            shorter,
            by,
        } => {
            let by = asked_by(alloc, &problem.asked, by.as_slice())?;
            let longer = region_at(&problem.regions, longer);
            let shorter = region_at(&problem.regions, shorter);
            Ok(Solved::Unmet {
                longer,
                shorter,
                by,
            })
        }
    }
}

// Constraints and facts are read. The region 'static gets the number 0.
fn read_problem<X: Copy + Eq + Hash>(
    problem: &mut Problem<X>,
    re_static: RegionKey<X>,
    constraints: &[RegionConstraint<X>],
    facts: &[RegionOutlivesPredicate<X>],
) -> Result<(), OutOfMemory>
    requires { let p = problem.old in IsEmpty p.regions p.asked.pairs p.asked.asked_by.items p.known.pairs
        p.known.asked_by.items }
    ensures { let p = problem.new in OnOk result (ReadsProblem (λ k l. X.eq k.0 l.0) re_static constraints.now facts.now
        p.regions p.asked.pairs p.asked.asked_by.items p.known.pairs) }
{
    number(&mut problem.regions, re_static)?;
    read_constraints(&mut problem.regions, &mut problem.asked, constraints)?;
    read_facts(&mut problem.regions, &mut problem.known, facts)
}

// The constraints of a context, and facts, are read, and solved.
fn solve_problem<C: InferCtxtLike>(
    ctx: &C,
    problem: &mut Problem<<C::Interner as Keys>::Key>,
    re_static: Region<C::Interner>,
    constraints: &[RegionConstraint<<C::Interner as Keys>::Key>],
    facts: &[RegionOutlivesPredicate<<C::Interner as Keys>::Key>],
) -> Result<Solved<<C::Interner as Keys>::Key>, OutOfMemory>
    requires lawful { (C.state ctx.now).lawful }
    requires is_static { ((C.state ctx.now).meaning).region re_static ≡ static }
    requires constraints { let c = C.state ctx.now in
        map (constraint_of c.meaning) constraints.now ≡ (c.store).constraints }
    requires facts_in { All (IsFactIn (C.state ctx.now)) facts.now }
    requires empty { let p = problem.old in IsEmpty p.regions p.asked.pairs p.asked.asked_by.items p.known.pairs
        p.known.asked_by.items }
    ensures { IfOk result (IsAnswered (C.state ctx.now) facts.now) }
{
    read_problem(problem, re_static, constraints, facts)?;
    let standings = standings_of(ctx, &problem.regions)?;
    answer(ctx.cx().alloc(), &*problem, standings.as_slice())
}

// The region 'static. Nothing is recorded.
fn make_static<C: InferCtxtLike>(ctx: &mut C) -> Result<Region<C::Interner>, OutOfMemory>
    requires { (C.state ctx.old).lawful }
    ensures grows { Grows (C.state ctx.old) (C.state ctx.new) }
    ensures same_record { (C.state ctx.new).store ≡ (C.state ctx.old).store }
    ensures marks { KeepsMarks (C.state ctx.old) (C.state ctx.new) }
    ensures is_static { IfOk result (λ r. ((C.state ctx.new).meaning).region r ≡ static) }
{
    ctx.lemma_interner_grows();
    ctx.cx_mut().mk_region(RegionKind::ReStatic)
}

/// Whether the regions of a context can be as it has recorded, where of given regions, which are no variables, nothing
/// holds but what follows of the facts. `'static` outlives all, and counts as given. A variable that outlives what its
/// universe can't name outlives `'static`.
///
/// After `Met` there is a world in which all holds that was recorded, and of given regions nothing but what follows of
/// the facts. The values are, of each variable, the given regions that it outlives in every such world, and no others.
///
/// After `Unmet` there is none: the constraints that are named, by their places in `region_constraints`, make the one
/// given region outlive the other in every world in which the facts hold, though it doesn't follow of the facts.
///
/// It takes time linear in constraints and facts times given regions. Nothing is recorded, and only the key of
/// `'static` is made. Upstream a body's regions are inferred, and a type's relations checked, by solvers of the
/// compiler's, outside of this layer.
///
/// # Errors
/// `OutOfMemory` where a growth was refused, and where there are more than 2^32 regions.
pub fn solve<C: RecordedRegions>(
    ctx: &mut C,
    facts: &[RegionOutlivesPredicate<<C::Interner as Keys>::Key>],
) -> Result<Solved<<C::Interner as Keys>::Key>, OutOfMemory>
    requires lawful { (C.state ctx.old).lawful }
    requires facts_in { All (IsFactIn (C.state ctx.old)) facts.now }
    ensures grows { Grows (C.state ctx.old) (C.state ctx.new) }
    ensures same_record { (C.state ctx.new).store ≡ (C.state ctx.old).store }
    ensures marks { KeepsMarks (C.state ctx.old) (C.state ctx.new) }
    ensures met { IfOk result (IfMet (C.state ctx.new) facts.now) }
    ensures least { IfOk result (IfValued (C.state ctx.new) facts.now) }
    ensures unmet { IfOk result (IfUnmet (C.state ctx.new) facts.now) }
{
    let re_static = make_static(ctx)?;
    let mut problem = Problem::new(ctx.cx().alloc());
    solve_problem(
        &*ctx,
        &mut problem,
        re_static,
        ctx.region_constraints(),
        facts,
    )
}
