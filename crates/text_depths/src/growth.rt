//! By how many levels what traits state is deeper, and how far an elaboration may go by it.

use crate::depth::MOST;
use crate::parts::{Sought, clauses_in, deepest_said, level_at, levels_to, one};
use std::alloc::{AllocError, Global};
use text_reading::naming::{Parts, Program, Question, QuestionKind, Says};

// Raises the number at a place of a list. Answers whether it was lower.
fn raise(growths: &mut Vec<usize>, number: usize, growth: usize) -> bool {
    match growths.get_mut(number) {
        Some(known) if *known < growth => {
            *known = growth;
            true
        }
        _ => false,
    }
}

// The most of what is known of the traits that predicates of a range claim.
fn growth_from(program: &Program, growths: &[usize], range: Parts) -> usize {
    let mut growth = 0;
    for clause in clauses_in(program, range) {
        if let Says::Claims(_, item, _) = clause.says {
            growth = level_at(growths, item).max(growth);
        }
    }
    growth
}

// Raises what is known of each trait to the most of those that it states. Answers whether anything was raised.
fn spread(program: &Program, growths: &mut Vec<usize>) -> bool {
    let mut any = false;
    for stated in &program.stated {
        let growth = growth_from(program, growths, stated.clauses);
        any |= raise(growths, stated.of, growth);
    }
    any
}

// The predicates that an elaboration begins with, the limit that is said of it, and how often is pulled at most.
fn elaboration_of(kind: &QuestionKind) -> Option<(Parts, Option<usize>, usize)> {
    match kind {
        QuestionKind::Elaborate {
            clauses,
            limit,
            pulls,
            ..
        } => Some((*clauses, *limit, pulls.unwrap_or(usize::MAX))),
        QuestionKind::Supertraits { clause, limit } => { Some((one(*clause), *limit, usize::MAX)) }
        _ => None,
    }
}

/// A question as it is asked.
#[derive(Drop)]
pub struct Bounded {
    pub question: Question,
    /// Whether its limit is lower than it says: where that is met, what follows may be too deep for the stack.
    pub lowered: bool,
}

/// By how many levels what follows from each trait may be deeper at a step of an elaboration, by the numbers of items.
#[derive(Drop)]
pub struct Growths {
    growths: Vec<usize>,
    // How many different predicates an elaboration may meet where nothing is said of it.
    most: usize,
}

impl Growths {
    /// Of the traits of a program. An elaboration may meet so many different predicates where nothing is said of it.
    ///
    /// # Errors
    /// `AllocError` where a growth was refused.
    pub fn new(alloc: Global, program: &Program, most: usize) -> Result<Growths, AllocError> {
        let mut growths = Vec::new(alloc);
        if program.stated.is_empty() {
            return Ok(Growths { growths, most });
        }
        growths = vec![in alloc; 0; program.items.len()]?;
        let levels = levels_to(alloc, program, Sought::Parameters)?;
        for stated in &program.stated {
            // By so many levels what is stated is deeper at most than what it is stated of.
            let deepest = deepest_said(alloc, program, &levels, stated.clauses)?;
            let _ = raise(&mut growths, stated.of, deepest.saturating_sub(1));
        }
        // A trait leads to each other one in fewer steps than there are items.
        for _ in &program.items {
            if !spread(program, &mut growths) {
                return Ok(Growths { growths, most });
            }
        }
        Ok(Growths { growths, most })
    }

    // How many different predicates an elaboration may meet, where it may meet others behind these that are too deep.
    // Each that is not given is deeper by the growth at most than one before it.
    fn most(&self, program: &Program, kind: &QuestionKind) -> Option<usize> {
        let (given, limit, pulls) = elaboration_of(kind)?;
        let limit = limit.unwrap_or(self.most);
        let growth = growth_from(program, &self.growths, given);
        if growth == 0 || limit.min(pulls).saturating_mul(growth) <= MOST {
            return None;
        }
        let given = given.behind.saturating_sub(given.first);
        let most = given.saturating_add(MOST / growth);
        if most < limit { Some(most) } else { None }
    }

    /// A question as it is asked, so that what follows from predicates is not too deep.
    pub fn bounded(&self, program: &Program, question: &Question) -> Bounded {
        let mut question = *question;
        let most = self.most(program, &question.kind);
        if let QuestionKind::Elaborate { limit, .. }
        | QuestionKind::Supertraits { limit, .. } = &mut question.kind
        {
            *limit = most.or(*limit);
        }
        Bounded {
            question,
            lowered: most.is_some(),
        }
    }
}
