//! What a relation leaves is counted.
ghost use Rattle.std.specs.Prelude.{◌≡◌, IfOk, OnOk};
ghost use Rattle.std.specs.Fmt.{WritesInCalls};
ghost use Rattle.std.specs.Set.{distinct_count};
ghost use Rattle.text_asking.specs.Counts.{counts_text};

use relation_reference::context::RefCtxt;
use relation_terms::terms::Interner;
use std::alloc::{AllocError, Global};
use std::collections::HashSet;
use std::fmt::{self, Write};
use std::hash::Hash;
use text_reading::reading::Counted;
use type_relations::relate::solver_relating::GoalOf;

// How many different elements a list has.
fn count_different<T: Copy + Eq + Hash + Drop>(
    alloc: Global,
    items: &[T],
) -> Result<usize, AllocError>
    ensures { IfOk result (λ n. n ≡ distinct_count T.eq items.now) }
{
    let set: HashSet<T> = items.iter().copied().collect(alloc)?;
    Ok(set.len())
}

// Writes how many there are, and how many different ones.
fn write_counts<W: Write>(all: usize, different: usize, out: &mut W) -> fmt::Result
    ensures { OnOk result (WritesInCalls W.write_str_gives out.old (counts_text all different) out.new) }
{
    write!(out, "{all} | {different}")
}

// Writes how many goals a relation leaves, or how many constraints on regions its context has recorded, and how many
// different ones.
pub(super) fn write_counted<I: Interner, W: Write>(
    ctx: &RefCtxt<I>,
    counted: Counted,
    goals: &[GoalOf<I>],
    out: &mut W,
) -> fmt::Result {
    if counted == Counted::Goals {
        return write!(out, "{}", goals.len());
    }
    let all = ctx.region_constraints();
    match count_different(ctx.interner.alloc(), all) {
        Ok(different) => write_counts(all.len(), different, out),
        Err(_) => Err(fmt::Error),
    }
}
