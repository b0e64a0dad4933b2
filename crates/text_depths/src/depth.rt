//! How deep what a question comes to may be, so that the stack holds it.

use crate::opening::{deepest_opened, opened_levels};
use crate::parts::{Sought, level_at, levels_to, one, push_parts, push_range, push_said};
use std::alloc::{AllocError, Global};
use text_reading::naming::{
    Parts, Program, Question, QuestionKind, Term, VariableId, VariableKind,
};

// How many terms with variables a chain may lead through, and by how many levels elaborating may make terms deeper.
// Relating, elaborating and printing go down a term level by level, on the program's stack. A term of a text has few
// levels, but variables may be bound to terms in which others stand, and a trait may state itself of a larger type. The
// stack holds twice as many levels beside those of a text's term (docs/DECISIONS.md).
pub(super) const MOST: usize = 1_024;

// Whether terms are related by a question.
fn relates(question: &Question) -> bool {
    matches!(
        question.kind,
        QuestionKind::Relate { .. }
            | QuestionKind::RelateArgs { .. }
            | QuestionKind::Overlap { .. }
            | QuestionKind::ImplsOverlap { .. }
            | QuestionKind::Prove { .. }
    )
}

// The numbers of the terms that are related.
fn push_related(
    program: &Program,
    kind: &QuestionKind,
    found: &mut Vec<usize>,
) -> Result<(), AllocError> {
    match kind {
        QuestionKind::Relate { lhs, rhs, .. } => found.extend_from_slice(&[*lhs, *rhs])?,
        QuestionKind::RelateArgs { lhs, rhs } => {
            push_range(program, *lhs, found)?;
            push_range(program, *rhs, found)?;
        }
        QuestionKind::Overlap { left, right } => {
            push_said(program, one(*left), found)?;
            push_said(program, one(*right), found)?;
        }
        QuestionKind::Prove { goal, .. } => push_said(program, one(*goal), found)?,
        _ => {}
    }
    Ok(())
}

// Where a search through terms stands: those that were found so far, by the number of the search, and how many of them
// are still to be gone through.
#[derive(Drop)]
struct Search {
    marks: Vec<usize>,
    search: usize,
    left: usize,
}

impl Search {
    // Finds those of some terms that have variables and were not found before.
    fn find(&mut self, open: &[usize], numbers: &[usize]) {
        for number in numbers {
            match self.marks.get_mut(*number) {
                Some(mark) if *mark != self.search && level_at(open, *number) > 0 => {
                    *mark = self.search;
                    self.left = self.left.saturating_add(1);
                }
                _ => {}
            }
        }
    }

    // Whether a term is to be gone through. Then it is done with.
    fn take(&mut self, number: usize) -> bool {
        let found = self.marks.get(number).copied() == Some(self.search);
        if found {
            self.left = self.left.saturating_sub(1);
        }
        found
    }
}

/// So many variables for types and for constants.
#[derive(Clone, Copy)]
pub struct Counts {
    pub types: usize,
    pub consts: usize,
}

// No variable.
const NONE: Counts = Counts {
    types: 0,
    consts: 0,
};

impl Counts {
    // At least so many.
    fn with(self, types: usize, consts: usize) -> Counts {
        Counts {
            types: self.types.max(types),
            consts: self.consts.max(consts),
        }
    }

    // And a variable that a question asks about itself.
    fn with_variable(self, variable: VariableId) -> Counts {
        match variable.kind {
            VariableKind::Ty => self.with(variable.number.saturating_add(1), 0),
            VariableKind::Const => self.with(0, variable.number.saturating_add(1)),
            _ => self,
        }
    }

    // And a term, if it is a variable.
    fn with_term(self, term: &Term) -> Counts {
        match term {
            Term::TyVar(number) => self.with(number.saturating_add(1), 0),
            Term::ConstVar(number) => self.with(0, number.saturating_add(1)),
            _ => self,
        }
    }
}

// How many variables a question's context has at least before terms are related: those that are said to be in it, and
// those that the question names, in terms that are related or by itself.
fn named_by(program: &Program, question: &Question, in_terms: Counts) -> Counts {
    let mut named = in_terms;
    for said in program.variables.get(..question.variables).unwrap_or(&[]) {
        named = named.with(said.types, said.consts);
    }
    match question.kind {
        QuestionKind::One(first, second) => named.with_variable(first).with_variable(second),
        QuestionKind::Binding(variable) => named.with_variable(variable),
        _ => named,
    }
}

// The variables of a kind that a context has.
#[derive(Drop)]
struct Variables {
    // Ranges of those that were made while terms were related.
    fresh: Vec<Parts>,
    // How many there were before the last question related terms.
    before: usize,
}

impl Variables {
    // Of a new context.
    fn new(alloc: Global) -> Variables {
        Variables {
            fresh: Vec::new(alloc),
            before: 0,
        }
    }

    // Whether that variable was made while terms were related.
    fn is_fresh(&self, number: usize) -> bool {
        let ranges = &self.fresh;
        ranges
            .iter()
            .any(|range| range.first <= number && number < range.behind)
    }

    // The context is a new one.
    fn clear(&mut self) {
        self.fresh.clear();
        self.before = 0;
    }

    // The question before has left so many.
    fn go_on(&mut self, made: usize) -> Result<(), AllocError> {
        if self.before < made {
            let (first, behind) = (self.before, made);
            self.fresh.push(Parts { first, behind })?;
        }
        self.before = made;
        Ok(())
    }
}

// What there is among the terms that are found from some on.
#[derive(Clone, Copy)]
struct Found {
    // How many have variables and parts.
    open: usize,
    // Whether one is a variable that was made while terms were related.
    fresh: bool,
    // How many variables there are up to the largest that they are.
    named: Counts,
}

/// How deep the terms of the context may be that was left.
#[derive(Drop)]
pub struct Depths {
    alloc: Global,
    // Of each term how many levels lead to a variable.
    open: Vec<usize>,
    // How many do in the first impls at most, by how many these are.
    opened: Vec<usize>,
    search: Search,
    // How many terms a chain of bindings may lead through.
    chained: usize,
    // How many instantiations the context may make.
    budget: usize,
    types: Variables,
    consts: Variables,
}

impl Depths {
    /// Of no question yet.
    ///
    /// # Errors
    /// `AllocError` where a growth was refused.
    pub fn new(alloc: Global, program: &Program) -> Result<Depths, AllocError> {
        // Only where terms are related is it asked what is open.
        let open = if program.questions.iter().any(relates) {
            levels_to(alloc, program, Sought::Variables)?
        } else {
            Vec::new(alloc)
        };
        let marks = vec![in alloc; 0; open.len()]?;
        let opened = deepest_opened(alloc, program)?;
        Ok(Depths {
            alloc,
            open,
            opened,
            search: Search {
                marks,
                search: 0,
                left: 0,
            },
            chained: 0,
            budget: 0,
            types: Variables::new(alloc),
            consts: Variables::new(alloc),
        })
    }

    // Whether a term is a variable that was made while terms were related.
    fn is_fresh(&self, term: &Term) -> bool {
        match term {
            Term::TyVar(number) => self.types.is_fresh(*number),
            Term::ConstVar(number) => self.consts.is_fresh(*number),
            _ => false,
        }
    }

    // Goes through the terms with variables that are found from some on. A part has a smaller number than what it is a
    // part of.
    fn find(&mut self, program: &Program, roots: &[usize]) -> Result<Found, AllocError> {
        let mut parts = Vec::new(self.alloc);
        let mut found = Found {
            open: 0,
            fresh: false,
            named: NONE,
        };
        self.search.search = self.search.search.saturating_add(1);
        self.search.left = 0;
        self.search.find(&self.open, roots);
        let top = roots.iter().copied().max().unwrap_or(0);
        for below in 0..program.terms.len() {
            if self.search.left == 0 || below > top {
                return Ok(found);
            }
            let number = top - below;
            if !self.search.take(number) {
                continue;
            }
            let Some(term) = program.terms.get(number) else {
                continue;
            };
            found.fresh = found.fresh || self.is_fresh(term);
            found.named = found.named.with_term(term);
            parts.clear();
            push_parts(program, term, &mut parts)?;
            if !parts.is_empty() {
                found.open = found.open.saturating_add(1);
            }
            self.search.find(&self.open, &parts);
        }
        Ok(found)
    }

    /// Takes up a question, of whose context it is said how many variables it has and, where it is a new one, how many
    /// instantiations it may make, and answers whether it may be asked,
    /// or may come to what is too deep. What was instantiated is a copy: where a variable is named that was made with
    /// one, the copy and what it is a copy of may stand in one chain. A variable that is made since a question names it
    /// stands in none.
    ///
    /// # Errors
    /// `AllocError` where a growth was refused.
    pub fn take_up(
        &mut self,
        program: &Program,
        question: &Question,
        made: Counts,
        budget: usize,
    ) -> Result<bool, AllocError> {
        if !question.then {
            self.chained = 0;
            self.budget = budget;
            self.types.clear();
            self.consts.clear();
        }
        self.types.go_on(made.types)?;
        self.consts.go_on(made.consts)?;
        let mut roots = Vec::new(self.alloc);
        push_related(program, &question.kind, &mut roots)?;
        let found = self.find(program, &roots)?;
        let before = self.chained.saturating_mul(if found.fresh { 2 } else { 1 });
        let opened = opened_levels(&self.opened, &question.kind, self.budget);
        let chained = before.saturating_add(found.open).saturating_add(opened);
        if chained > MOST {
            return Ok(false);
        }
        self.chained = chained;
        if question.repeat > 1 {
            // It is asked at last in a new context.
            self.types.clear();
            self.consts.clear();
        }
        let named = named_by(program, question, found.named);
        self.types.before = self.types.before.max(named.types);
        self.consts.before = self.consts.before.max(named.consts);
        Ok(true)
    }
}
