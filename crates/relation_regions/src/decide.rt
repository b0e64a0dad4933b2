//! Which given nodes have to outlive which, by edges that are asked for, and whether that was known.
ghost use Rattle.std.specs.Prelude.{◌≡◌, ◌<◌, ◌≤◌, [], length, All, IfOk, OnOk, MatchOption};
ghost use Rattle.relation_regions.specs.Graphs.{IsGraph, Reaches, HasSameEdges};
ghost use Rattle.relation_regions.specs.Standings.{IsForced, Among};
ghost use Rattle.relation_regions.specs.Widening.{AreReasons, IsWidened};
ghost use Rattle.relation_regions.specs.Deciding.{IsUnknown, AllKnown, AreValuesTo, IsDecision};
ghost use Rattle.relation_regions.specs.Deciding.{KnowsFound, IsFoundAgainst, IsPassed, IsAgainst};
ghost use Rattle.relation_regions.specs.Deciding.{IsDecidedTo};

use crate::graph::Graph;
use crate::search::{Search, path_to, reaching};
use crate::standing::Standing;
use crate::unsatisfiable::causes_of;
use crate::widening::{reasons_of, widen};
use std::alloc::Global;
use term_enums::OutOfMemory;

/// Whether numbered regions can be as it is asked, where of given ones just what is known outlives.
#[derive(Drop)]
pub enum Decision {
    /// They can. Pairs of a variable and a given region that it has to outlive.
    Met(Vec<(usize, usize)>),
    /// They can't: a given region has to outlive another one by the pairs that are asked with these places, though that
    /// isn't known.
    Unmet {
        longer: usize,
        shorter: usize,
        by: Vec<usize>,
    },
}

// A given node that reaches the target, though that isn't known.
fn find_unknown(standings: &[Standing], found: &Search, known: &Search) -> Option<usize>
    requires found { length found.now.places.items ≡ length standings.now }
    requires known { length known.now.places.items ≡ length standings.now }
    ensures { MatchOption result (AllKnown standings.now found.now known.now (length standings.now))
        (IsUnknown standings.now found.now known.now) }
{
    for node in 0..standings.len() {
        if standings[node].is_given()
            && found.places[node].is_some()
            && known.places[node].is_none()
        {
            return Some(node);
        }
    }
    None
}

// Each variable that reaches the target, with it.
fn add_values(
    standings: &[Standing],
    found: &Search,
    target: usize,
    values: &mut Vec<(usize, usize)>,
) -> Result<(), OutOfMemory>
    requires { length found.now.places.items ≡ length standings.now }
    ensures { let n = length standings.now in
        OnOk result (AreValuesTo standings.now found.now target values.old.items values.new.items n) }
{
    for node in 0..standings.len() {
        if !standings[node].is_given() && found.places[node].is_some() {
            values.push((node, target))?;
        }
    }
    Ok(())
}

// A given node that reaches a target, though that isn't known, of those that were found.
fn find_against(
    alloc: Global,
    known: &Graph,
    standings: &[Standing],
    found: &Search,
    target: usize,
) -> Result<Option<usize>, OutOfMemory>
    requires known { IsGraph known.now }
    requires known_nodes { length known.now.latest.items ≡ length standings.now }
    requires found { length found.now.places.items ≡ length standings.now }
    requires target { target < length standings.now }
    ensures { IfOk result (λ against. MatchOption against
        (KnowsFound known.now standings.now found.now target)
        (IsFoundAgainst known.now standings.now found.now target)) }
{
    let stated = reaching(alloc, known, target)?;
    Ok(find_unknown(standings, found, &stated))
}

// The same. Where there is none, each variable that was found is added.
fn decide_found(
    alloc: Global,
    known: &Graph,
    standings: &[Standing],
    found: &Search,
    target: usize,
    values: &mut Vec<(usize, usize)>,
) -> Result<Option<usize>, OutOfMemory>
    requires known { IsGraph known.now }
    requires known_nodes { length known.now.latest.items ≡ length standings.now }
    requires found { length found.now.places.items ≡ length standings.now }
    requires target { target < length standings.now }
    ensures { let n = length standings.now in IfOk result (λ against. MatchOption against
        (KnowsFound known.now standings.now found.now target ×
        AreValuesTo standings.now found.now target values.old.items values.new.items n)
        (IsFoundAgainst known.now standings.now found.now target)) }
{
    let against = find_against(alloc, known, standings, found, target)?;
    if against.is_none() {
        add_values(standings, found, target, values)?;
    }
    Ok(against)
}

// The same of a target, if it is given, of all that reach it.
fn decide_target(
    alloc: Global,
    known: &Graph,
    wide: &Graph,
    standings: &[Standing],
    target: usize,
    values: &mut Vec<(usize, usize)>,
) -> Result<Option<usize>, OutOfMemory>
    requires known { IsGraph known.now }
    requires wide { IsGraph wide.now }
    requires known_nodes { length known.now.latest.items ≡ length standings.now }
    requires nodes { length wide.now.latest.items ≡ length standings.now }
    requires target { target < length standings.now }
    ensures { IfOk result (λ against. MatchOption against
        (IsPassed known.now wide.now standings.now target values.old.items values.new.items)
        (IsAgainst known.now wide.now standings.now target)) }
{
    if !standings[target].is_given() {
        return Ok(None);
    }
    let found = reaching(alloc, wide, target)?;
    decide_found(alloc, known, standings, &found, target, values)
}

// Two given nodes of which the first reaches the second, though that isn't known. Where there are none, each variable is
// added with what it reaches.
fn decide_targets(
    alloc: Global,
    known: &Graph,
    wide: &Graph,
    standings: &[Standing],
    values: &mut Vec<(usize, usize)>,
) -> Result<Option<(usize, usize)>, OutOfMemory>
    requires known { IsGraph known.now }
    requires wide { IsGraph wide.now }
    requires known_nodes { length known.now.latest.items ≡ length standings.now }
    requires nodes { length wide.now.latest.items ≡ length standings.now }
    requires none { values.old.items ≡ [] }
    ensures { IfOk result (λ against. MatchOption against
        (IsDecidedTo known.now wide.now standings.now (length standings.now) values.new.items)
        (λ pair. IsAgainst known.now wide.now standings.now pair.1 pair.0)) }
{
    for target in 0..standings.len() {
        let against = decide_target(alloc, known, wide, standings, target, values)?;
        if let Some(longer) = against {
            return Ok(Some((longer, target)));
        }
    }
    Ok(None)
}

// Why one node reaches another in the widened graph.
fn explain(
    alloc: Global,
    graph: &Graph,
    wide: &Graph,
    standings: &[Standing],
    reasons: &[Option<usize>],
    asked: usize,
    longer: usize,
    shorter: usize,
) -> Result<Vec<usize>, OutOfMemory>
    requires graph { IsGraph graph.now }
    requires nodes { length graph.now.latest.items ≡ length standings.now }
    requires reasons { AreReasons graph.now standings.now reasons.now }
    requires wide { IsWidened graph.now reasons.now (length reasons.now) wide.now }
    requires asked { asked ≤ length graph.now.to.items }
    requires longer { longer < length standings.now }
    requires shorter { shorter < length standings.now }
    requires reaches { Reaches wide.now longer shorter }
    ensures asked_for { IfOk result (λ by. All (λ i. i < asked) by.items) }
    ensures forced { IfOk result (λ by.
        IsForced graph.now.from.items graph.now.to.items asked standings.now (Among by.items) longer shorter) }
{
    let path = path_to(alloc, wide, shorter, longer)?;
    causes_of(
        alloc,
        graph,
        wide,
        standings,
        reasons,
        asked,
        longer,
        shorter,
        path.as_slice(),
    )
}

/// Decides what is asked by a graph's first edges, `asked` in number, the others of which are those of what is known.
/// A copy of the graph is handed in, and widened. It takes time linear in edges times given nodes.
pub(crate) fn decide(
    alloc: Global,
    known: &Graph,
    graph: &Graph,
    wide: &mut Graph,
    asked: usize,
    standings: &[Standing],
) -> Result<Decision, OutOfMemory>
    requires known { IsGraph known.now }
    requires graph { IsGraph graph.now }
    requires copy { IsGraph wide.old }
    requires same { HasSameEdges graph.now wide.old }
    requires known_nodes { length known.now.latest.items ≡ length standings.now }
    requires nodes { length graph.now.latest.items ≡ length standings.now }
    requires asked { asked ≤ length graph.now.to.items }
    ensures { IfOk result (IsDecision known.now graph.now asked standings.now) }
{
    let reasons = reasons_of(alloc, graph, standings)?;
    let why = reasons.as_slice();
    widen(wide, why)?;
    let mut values = Vec::new(alloc);
    let against = decide_targets(alloc, known, &*wide, standings, &mut values)?;
    match against {
        None => Ok(Decision::Met(values)),
        Some((longer, shorter)) => {
            let by = explain(alloc, graph, &*wide, standings, why, asked, longer, shorter)?;
            Ok(Decision::Unmet {
                longer,
                shorter,
                by,
            })
        }
    }
}
