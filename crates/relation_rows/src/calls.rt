//! What calls answer that no question asks.

mod deepening;
mod delaying;
mod growing;
mod interning;
mod making;
mod relating;
mod towers;
mod writing;

use crate::doubling::count_terms_and_nodes;
use crate::running::{RowFault, asked};
use deepening::write_deep;
use delaying::write_found;
use growing::write_yielded;
use interning::{PARTIAL_EQ, write_terms, write_unrelated};
use relation_terms::predicate::AliasTermKind;
use relation_terms::terms::{
    BoundConstness, FreeConstAliasId, ImplPolarity, OutOfMemory, PredicatePolarity,
};
use std::alloc::Global;
use std::fmt::{self, Write};
use towers::write_goals;

// A call that no question makes.
enum Call {
    // What a map that lets its first insertions go finds by a number, of those from 1 to 33.
    Found(u32),
    // What a negative polarity, a constness, a negative impl and an alias of a constant are called.
    Names,
    Terms(Terms),
    // Why what differs so is not related.
    Traits(Differing),
    // How many terms are walked of a type that is doubled 60 times, and how many nodes are added for it again.
    Counts,
    // How many goals relating two towers of 60 pairs leaves.
    Goals,
    // Whether `bool` and `char` under 1,000 slices may unify, and whether they are related.
    Deep,
    // How many predicates are yielded where only a limit ends an elaboration, and what is answered then.
    Yielded,
}

// What is made of terms.
#[derive(Clone, Copy)]
pub(super) enum Terms {
    // The arguments of an inherent alias, rebased onto an impl.
    Rebased,
    // Of an associated type the trait, and its own arguments.
    Projected,
    // A trait without the type that implements it, and with another one.
    Erased,
    // What outlives which where two regions are equal, and which constraints are trivial.
    Regions,
}

// How two predicates of a trait differ, or two references of traits.
#[derive(Clone, Copy)]
pub(super) enum Differing {
    Polarity,
    Trait,
}

// The rows that ask by calls.
static CALLS: [(&str, &[Call]); 10] = [
    ("r06", &[Call::Found(32), Call::Found(33)]),
    ("r32", &[Call::Names]),
    (
        "r49",
        &[Call::Terms(Terms::Rebased), Call::Terms(Terms::Projected)],
    ),
    ("r50", &[Call::Terms(Terms::Erased)]),
    ("r51", &[Call::Terms(Terms::Regions)]),
    (
        "r52",
        &[
            Call::Traits(Differing::Polarity),
            Call::Traits(Differing::Trait),
        ],
    ),
    ("r61", &[Call::Counts]),
    ("r62", &[Call::Goals]),
    ("r64", &[Call::Deep]),
    ("r65", &[Call::Yielded]),
];

// What refuses memory to a call refuses it to its row.
impl From<OutOfMemory> for RowFault {
    fn from(_refused: OutOfMemory) -> RowFault {
        RowFault::Memory
    }
}

impl From<fmt::Error> for RowFault {
    fn from(_refused: fmt::Error) -> RowFault {
        RowFault::Memory
    }
}

// Writes the answers to questions.
pub(super) fn write_asked<W: Write>(
    alloc: Global,
    questions: &str,
    out: &mut W,
) -> Result<(), RowFault> {
    let answers = asked(alloc, questions)?;
    out.write_str(answers.as_str())?;
    Ok(())
}

// Writes what a negative polarity, a constness, a negative impl and an alias of a constant are called.
fn write_names<W: Write>(out: &mut W) -> Result<(), RowFault> {
    let def_id = FreeConstAliasId(PARTIAL_EQ);
    let (polarity, constness) = (PredicatePolarity::Negative, BoundConstness::Maybe);
    let of_impl = ImplPolarity::Negative.as_str();
    let alias = AliasTermKind::FreeConst { def_id }.descr();
    write!(out, "{polarity} | {constness} | {of_impl} | {alias}")?;
    Ok(())
}

// Writes how many terms are walked of a type that is doubled 60 times, and how many nodes are added for it again.
fn write_counts<W: Write>(alloc: Global, out: &mut W) -> Result<(), RowFault> {
    let (terms, nodes) = count_terms_and_nodes(alloc, 60)?;
    write!(out, "{terms} | {nodes}")?;
    Ok(())
}

// Writes what a call answers.
fn write_call<W: Write>(alloc: Global, call: &Call, out: &mut W) -> Result<(), RowFault> {
    match call {
        Call::Found(number) => write_found(alloc, *number, out),
        Call::Names => write_names(out),
        Call::Terms(of) => write_terms(alloc, *of, out),
        Call::Traits(differing) => write_unrelated(alloc, *differing, out),
        Call::Counts => write_counts(alloc, out),
        Call::Goals => write_goals(alloc, out),
        Call::Deep => write_deep(alloc, out),
        Call::Yielded => write_yielded(alloc, out),
    }
}

// What the row of a name asks by calls.
fn calls_of(name: &str) -> &'static [Call] {
    for (row, calls) in &CALLS {
        if *row == name {
            return *calls;
        }
    }
    &[]
}

/// The answers of the row of a name that asks no question, with ` | ` between two.
///
/// # Errors
/// `Memory` where a growth was refused.
pub fn called(alloc: Global, name: &str) -> Result<String, RowFault> {
    let mut text = String::new(alloc);
    let mut any = false;
    for call in calls_of(name) {
        text.write_str(if any { " | " } else { "" })?;
        write_call(alloc, call, &mut text)?;
        any = true;
    }
    Ok(text)
}
