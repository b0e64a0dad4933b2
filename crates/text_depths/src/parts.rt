//! The parts of terms, regions left out, and how many levels lead to what stands in terms.

use std::alloc::{AllocError, Global};
use text_reading::naming::{Clause, Parts, Program, Says, Term};

// The range of one place alone.
pub(super) fn one(first: usize) -> Parts {
    let behind = first.saturating_add(1);
    Parts { first, behind }
}

// Numbers of terms: up to two, and those of a range.
type Numbers = (Option<usize>, Option<usize>, Parts);

// Of no term.
const NO_PARTS: Parts = Parts {
    first: 0,
    behind: 0,
};

// The numbers of a term's parts.
fn parts_of(term: &Term) -> Numbers {
    match term {
        Term::Slice(part)
        | Term::RawPtr(part, _)
        | Term::Ref(_, part, _)
        | Term::UnsafeBinder(_, part) => (Some(*part), None, NO_PARTS),
        Term::Array(first, second) | Term::Pat(first, second) | Term::Range(first, second) => {
            (Some(*first), Some(*second), NO_PARTS)
        }
        Term::Item(_, _, parts)
        | Term::Tuple(parts)
        | Term::Branch(_, parts)
        | Term::Expr(_, parts)
        | Term::Or(parts)
        | Term::FnPtr(_, _, parts)
        | Term::Object(parts, _)
        | Term::Implements(_, _, parts) => (None, None, *parts),
        Term::Projects(_, _, args, part) => (Some(*part), None, *args),
        _ => (None, None, NO_PARTS),
    }
}

// Adds the numbers of a range.
pub(super) fn push_range(
    program: &Program,
    range: Parts,
    found: &mut Vec<usize>,
) -> Result<(), AllocError> {
    let numbers = program.parts.get(range.first..range.behind);
    found.extend_from_slice(numbers.unwrap_or(&[]))
}

// Adds numbers of terms.
fn push_numbers(
    program: &Program,
    those: Numbers,
    found: &mut Vec<usize>,
) -> Result<(), AllocError> {
    let (first, second, range) = those;
    for number in [first, second] {
        if let Some(number) = number {
            found.push(number)?;
        }
    }
    push_range(program, range, found)
}

// Adds the numbers of a term's parts.
pub(super) fn push_parts(
    program: &Program,
    term: &Term,
    found: &mut Vec<usize>,
) -> Result<(), AllocError> {
    push_numbers(program, parts_of(term), found)
}

// The predicates of a range of a program's list.
pub(super) fn clauses_in<'a>(program: &'a Program, range: Parts) -> &'a [Clause] {
    let found = program.clauses.get(range.first..range.behind);
    found.unwrap_or(&[])
}

// The numbers of the terms of a predicate, but for regions.
fn terms_of(says: &Says) -> Numbers {
    match says {
        Says::Claims(_, _, args) => (None, None, *args),
        Says::ComesTo(_, _, args, term) => (Some(*term), None, *args),
        Says::TypeOutlives(term, _) | Says::WellFormed(term) | Says::ConstEvaluatable(term) => {
            (Some(*term), None, NO_PARTS)
        }
        Says::ConstArgHasType(constant, ty) => (Some(*constant), Some(*ty), NO_PARTS),
        Says::RegionOutlives(..) | Says::UnstableFeature(_) => (None, None, NO_PARTS),
    }
}

// Adds the numbers of the terms of the predicates of a range.
pub(super) fn push_said(
    program: &Program,
    range: Parts,
    found: &mut Vec<usize>,
) -> Result<(), AllocError> {
    for clause in clauses_in(program, range) {
        push_numbers(program, terms_of(&clause.says), found)?;
    }
    Ok(())
}

// What is looked for in terms.
#[derive(Clone, Copy)]
pub(super) enum Sought {
    Any,
    // What variables may come to stand in: a variable, or what a binder binds, which is read as one.
    Variables,
    // What others are put for where what a trait states is used.
    Parameters,
}

impl Sought {
    // Whether a term is such a one itself.
    fn is(self, term: &Term) -> bool {
        match self {
            Sought::Any => true,
            Sought::Variables => matches!(
                term,
                Term::TyVar(_)
                    | Term::IntVar(_)
                    | Term::FloatVar(_)
                    | Term::ConstVar(_)
                    | Term::TyBound(..)
                    | Term::ConstBound(..)
            ),
            Sought::Parameters => matches!(term, Term::TyParam(..) | Term::ConstParam(..)),
        }
    }
}

// The number at a place of a list, or 0.
pub(super) fn level_at(levels: &[usize], number: usize) -> usize {
    levels.get(number).copied().unwrap_or(0)
}

// How many levels of each term of a program lead to what is sought, this counted: 0 where none stands in it.
pub(super) fn levels_to(
    alloc: Global,
    program: &Program,
    sought: Sought,
) -> Result<Vec<usize>, AllocError> {
    let mut levels = Vec::with_capacity(alloc, program.terms.len())?;
    let mut parts = Vec::new(alloc);
    for term in &program.terms {
        parts.clear();
        push_parts(program, term, &mut parts)?;
        let mut level = if sought.is(term) { 1usize } else { 0 };
        for part in &parts {
            let below = level_at(&levels, *part);
            if below > 0 {
                level = below.saturating_add(1).max(level);
            }
        }
        levels.push(level)?;
    }
    Ok(levels)
}

// How many levels the deepest term has of the predicates of a range.
pub(super) fn deepest_said(
    alloc: Global,
    program: &Program,
    levels: &[usize],
    range: Parts,
) -> Result<usize, AllocError> {
    let mut terms = Vec::new(alloc);
    push_said(program, range, &mut terms)?;
    Ok(
        terms
            .iter()
            .map(|number| level_at(levels, *number))
            .max()
            .unwrap_or(0),
    )
}
