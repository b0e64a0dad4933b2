//! Walks that are asked for: what a walk yields that skips after some of its pulls.
ghost use Rattle.std.specs.Prelude.{◌≡◌, IfOk, cond, []};
ghost use Rattle.walk.specs.Walking.{Walk};
ghost use Rattle.text_asking.specs.Meets.{AllKnown};
ghost use Rattle.text_asking.specs.Skips.{stands_in, AreYielded, GoesOver};

use relation_terms::terms::{GenericArg, GenericArgKind, Interner, OutOfMemory};
use relation_tools::walk::TypeWalker;
use std::alloc::Global;
use std::fmt::{self, Write};
use text_reading::naming::Parts;
use text_terms::printing::{TextsOf, write_arg};

// Skips what is under the last yielded argument, once for each time that a number of pulls stands among others.
fn skip_after<I: Interner>(walker: &mut TypeWalker<'_, I>, skips: &[usize], pulls: usize)
    ensures { walker.new ≡ cond (stands_in skips.now pulls) (record walker.old { inside = [] }) walker.old }
{
    for number in skips {
        if *number == pulls {
            walker.skip_current_subtree();
        }
    }
}

// The same for each number of pulls that is larger.
fn skip_behind<I: Interner>(walker: &mut TypeWalker<'_, I>, skips: &[usize], pulls: usize)
    ensures after { (walker.new).after ≡ (walker.old).after }
    ensures inside { (walker.old).inside ≡ [] → (walker.new).inside ≡ [] }
{
    for number in skips {
        if *number > pulls {
            walker.skip_current_subtree();
        }
    }
}

// What a walk yields that begins at an argument. Behind its end it is pulled once more.
pub(super) fn walk_on<I: Interner>(
    alloc: Global,
    walker: &mut TypeWalker<'_, I>,
    root: &GenericArg<I>,
    skips: &[usize],
) -> Result<Vec<GenericArg<I>>, OutOfMemory>
    requires { GoesOver (I.meaning (walker.old).cx) ⟦<GenericArgKind<I::Key> as PartialEq>⟧.eq walker.old root.now }
    ensures sure { IfOk result (λ xs. AllKnown (I.meaning (walker.old).cx) xs.items) }
    ensures by_places { IfOk result (λ xs. AreYielded (I.meaning (walker.old).cx) root.now skips.now xs.items) }
{
    let mut found = Vec::new(alloc);
    skip_after(walker, skips, 0);
    while let Some(arg) = walker.pull() {
        found.push(arg?)?;
        skip_after(walker, skips, found.len());
    }
    skip_behind(walker, skips, found.len());
    if let Some(arg) = walker.pull() {
        found.push(arg?)?;
    }
    Ok(found)
}

// The numbers of a range.
pub(super) fn numbers_at(numbers: &[usize], range: Parts) -> &[usize] {
    numbers.get(range.first..range.behind).unwrap_or(&[])
}

// Writes what the pulls of a walk have answered, to its end.
pub(super) fn write_walked<I: Interner, W: Write>(
    cx: &I,
    texts: &TextsOf<I>,
    yielded: &[GenericArg<I>],
    out: &mut W,
) -> fmt::Result
    requires { AllKnown (I.meaning cx.now) yielded.now }
{
    for term in yielded {
        write_arg(cx, texts, term, out)?;
        out.write_str(" | ")?;
    }
    out.write_str("end")
}
