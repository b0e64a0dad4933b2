//! Constraints and facts are read: their regions get numbers, and they become pairs of these.
ghost use Rattle.std.specs.Prelude.{◌≡◌, ◌≤◌, ◌^◌, All, length, map, IfOk, OnOk};
ghost use Rattle.relation_semantics.specs.Contexts.{HasRegion};
ghost use Rattle.relation_semantics.specs.Stores.{IsRegionIn};
ghost use Rattle.relation_regions.specs.Reading.{standing_in, trees_of, AreNone};
ghost use Rattle.relation_regions.specs.Reading.{ReadsPair, ReadsConstraint, ReadsConstraints, ReadsFacts};

use crate::building::Pairs;
use crate::numbering::{number, region_at};
use crate::rows::push_row;
use crate::solving::RegionOutlivesPredicate;
use crate::standing::Standing;
use node_table::NodeTable;
use relation_semantics::infer_ctxt::InferCtxtLike;
use relation_terms::predicate::{OutlivesPredicate, RegionConstraint};
use relation_terms::terms::{GenericArgKind, Interner, Region, RegionKey, RegionKind};
use std::hash::Hash;
use term_enums::OutOfMemory;

/// Pairs of numbered regions, and of each the number of what asks for it.
#[derive(Drop)]
pub(crate) struct NumberedPairs {
    pub(crate) pairs: Pairs,
    pub(crate) asked_by: Vec<usize>,
}

// A pair of two regions is put behind the others.
fn add_pair<X: Copy + Eq + Hash>(
    table: &mut NodeTable<RegionKey<X>>,
    pairs: &mut NumberedPairs,
    longer: RegionKey<X>,
    shorter: RegionKey<X>,
    asked_by: usize,
) -> Result<(), OutOfMemory>
    ensures { OnOk result (ReadsPair (λ k l. X.eq k.0 l.0) longer shorter asked_by
        table.old pairs.old.pairs pairs.old.asked_by.items table.new pairs.new.pairs pairs.new.asked_by.items) }
{
    let first = number(table, longer)?;
    let second = number(table, shorter)?;
    push_row(
        &mut pairs.pairs.longer,
        &mut pairs.pairs.shorter,
        &mut pairs.asked_by,
        first,
        second,
        asked_by,
    )
}

// The pairs that a constraint asks for. One on a type or a constant asks for none, and a context records none.
fn read_constraint<X: Copy + Eq + Hash>(
    table: &mut NodeTable<RegionKey<X>>,
    pairs: &mut NumberedPairs,
    constraint: RegionConstraint<X>,
    index: usize,
) -> Result<(), OutOfMemory>
    ensures { OnOk result (ReadsConstraint (λ k l. X.eq k.0 l.0) constraint index
        table.old pairs.old.pairs pairs.old.asked_by.items table.new pairs.new.pairs pairs.new.asked_by.items) }
{
    match constraint {
        RegionConstraint::Outlives(outlives) => {
            let OutlivesPredicate(left, shorter) = outlives;
            match left {
                GenericArgKind::Lifetime(longer) => add_pair(table, pairs, longer, shorter, index),
                GenericArgKind::Ty(_) => Ok(()),
                GenericArgKind::Const(_) => Ok(()),
            }
        }
        RegionConstraint::Eq(equal) => {
            add_pair(table, pairs, equal.0, equal.1, index)?;
            add_pair(table, pairs, equal.1, equal.0, index)
        }
    }
}

/// The pairs that constraints ask for.
pub(crate) fn read_constraints<X: Copy + Eq + Hash>(
    table: &mut NodeTable<RegionKey<X>>,
    pairs: &mut NumberedPairs,
    constraints: &[RegionConstraint<X>],
) -> Result<(), OutOfMemory>
    requires { AreNone pairs.old.pairs pairs.old.asked_by.items }
    ensures { OnOk result (ReadsConstraints (λ k l. X.eq k.0 l.0) constraints.now (length constraints.now)
        table.old table.new pairs.new.pairs pairs.new.asked_by.items) }
{
    for index in 0..constraints.len() {
        read_constraint(table, pairs, constraints[index], index)?;
    }
    Ok(())
}

/// The pairs that facts state.
pub(crate) fn read_facts<X: Copy + Eq + Hash>(
    table: &mut NodeTable<RegionKey<X>>,
    pairs: &mut NumberedPairs,
    facts: &[RegionOutlivesPredicate<X>],
) -> Result<(), OutOfMemory>
    requires { AreNone pairs.old.pairs pairs.old.asked_by.items }
    ensures { OnOk result (ReadsFacts (λ k l. X.eq k.0 l.0) facts.now (length facts.now)
        table.old table.new pairs.new.pairs pairs.new.asked_by.items) }
{
    for index in 0..facts.len() {
        let fact = facts[index];
        add_pair(table, pairs, fact.0, fact.1, index)?;
    }
    Ok(())
}

// What a region of the context is.
fn standing<C: InferCtxtLike>(ctx: &C, region: &Region<C::Interner>) -> Standing
    requires lawful { (C.state ctx.now).lawful }
    requires region_in { HasRegion (C.state ctx.now) region.now }
    ensures { let c = C.state ctx.now in result ≡ standing_in c.store ((c.meaning).region region.now) }
{
    match ctx.cx().region_kind(region) {
        RegionKind::ReStatic => Standing::Named,
        RegionKind::ReEarlyParam(_) => Standing::Named,
        RegionKind::ReBound(..) => Standing::Named,
        RegionKind::ReVar(vid) => match ctx.universe_of_lt(vid) {
            Some(universe) => Standing::Variable(universe.0),
            None => Standing::Named,
        },
        RegionKind::RePlaceholder(placeholder) => Standing::Placeholder(placeholder.universe.0),
    }
}

/// What each region of the context is that has a number.
pub(crate) fn standings_of<C: InferCtxtLike>(
    ctx: &C,
    table: &NodeTable<Region<C::Interner>>,
) -> Result<Vec<Standing>, OutOfMemory>
    requires lawful { (C.state ctx.now).lawful }
    requires regions_in { let c = C.state ctx.now in All (IsRegionIn c.store) (trees_of c table.now) }
    requires fits { length table.now ≤ 2 ^ 32 }
    ensures { let c = C.state ctx.now in
        IfOk result (λ standings. standings.items ≡ map (standing_in c.store) (trees_of c table.now)) }
{
    let mut standings = Vec::new(ctx.cx().alloc());
    for index in 0..table.len() {
        let region = region_at(table, index);
        let stands = standing(ctx, &region);
        standings.push(stands)?;
    }
    Ok(standings)
}
