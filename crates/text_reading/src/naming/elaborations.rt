//! Questions about what predicates imply, of the tree's nodes.

use crate::naming::error::Named;
use crate::naming::namer::Namer;
use crate::naming::program::QuestionKind;
use crate::reading::{Form, Node, NodeKind};

// What a question says behind its predicates: how many different ones there may be, and how many are asked for.
#[derive(Clone, Copy)]
struct Counts {
    limit: Option<usize>,
    pulls: Option<usize>,
}

impl<'a> Namer<'a> {
    // The predicates of a question, and what it says behind them.
    fn split<'b>(&self, parts: &'b [usize]) -> Named<(&'b [usize], Counts)> {
        let mut counts = Counts {
            limit: None,
            pulls: None,
        };
        for (place, number) in parts.iter().enumerate().rev() {
            let node = self.node(*number);
            match node.kind {
                NodeKind::Form(Form::Limit) => counts.limit = self.count_if(self.parts(&node))?,
                NodeKind::Form(Form::Pulls) => counts.pulls = self.count_if(self.parts(&node))?,
                _ => {
                    let clauses = parts.get(..place.saturating_add(1)).unwrap_or(parts);
                    return Ok((clauses, counts));
                }
            }
        }
        Ok((&[], counts))
    }

    // What follows from predicates.
    pub fn note_elaborated(&mut self, only_self: bool, sized: bool, parts: &[usize]) -> Named<()> {
        let (clauses, counts) = self.split(parts)?;
        let clauses = self.clauses(clauses)?;
        self.note(QuestionKind::Elaborate {
            clauses,
            only_self,
            sized,
            limit: counts.limit,
            pulls: counts.pulls,
        })
    }

    // The supertraits of a trait that a predicate claims to be implemented.
    pub fn note_supertraits(&mut self, node: &Node, parts: &[usize]) -> Named<()> {
        let (clauses, counts) = self.split(parts)?;
        let clauses = self.clauses(clauses)?;
        self.each_implements(node, clauses)?;
        self.note(QuestionKind::Supertraits {
            clause: clauses.first,
            limit: counts.limit,
        })
    }
}
