//! By how many levels a question may make terms deeper that opens impls.

use crate::parts::{Sought, deepest_said, level_at, levels_to};
use std::alloc::{AllocError, Global};
use text_reading::naming::{Program, QuestionKind};

// How many of a program's first impls a question may open.
fn opened_by(kind: &QuestionKind) -> usize {
    match *kind {
        QuestionKind::Prove { impls, .. } | QuestionKind::ImplsOverlap { impls, .. } => impls,
        _ => 0,
    }
}

// How many levels of the terms of a program's impls lead to a variable at most: of the first impl, of the first two, and
// so on to as many as a question may open.
pub(super) fn deepest_opened(alloc: Global, program: &Program) -> Result<Vec<usize>, AllocError> {
    let mut deepest = Vec::new(alloc);
    let questions = &program.questions;
    let impls = questions.iter().map(|it| opened_by(&it.kind)).max();
    let opened = program.impls.get(..impls.unwrap_or(0)).unwrap_or(&[]);
    if opened.is_empty() {
        return Ok(deepest);
    }
    let levels = levels_to(alloc, program, Sought::Variables)?;
    let mut most = 0usize;
    for said in opened {
        most = deepest_said(alloc, program, &levels, said.clauses)?.max(most);
        deepest.push(most)?;
    }
    Ok(deepest)
}

// By how many levels a question may make terms deeper that opens impls, where its context makes so many instantiations:
// each by no more than lead to a variable in the terms of an impl. What stands behind these is a text's term.
pub(super) fn opened_levels(deepest: &[usize], kind: &QuestionKind, budget: usize) -> usize {
    match opened_by(kind).checked_sub(1) {
        Some(last) => level_at(deepest, last).saturating_mul(budget),
        None => 0,
    }
}
