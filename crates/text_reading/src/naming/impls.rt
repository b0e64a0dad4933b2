//! Impls, and questions about impls and methods, of the tree's nodes.

use crate::naming::aliases::sort_of;
use crate::naming::error::{Named, Wrong, error_at};
use crate::naming::namer::Namer;
use crate::naming::program::{Clause, Impl, Method, Parts, QuestionKind, Says};
use crate::reading::{Claim, Node};
use term_enums::PredicatePolarity;

// What the header of an impl claims of its trait.
const IMPLEMENTED: Claim = Claim::Trait(PredicatePolarity::Positive);

/// Within which depth a goal is to follow where nothing is said of it.
const DEPTH: usize = 32;

/// The largest depth: the program's stack holds so many goals, each asked for by the one before.
const MOST_DEPTH: usize = 128;

// The trait of a header.
fn trait_of_header(header: &Clause) -> Option<usize> {
    match header.says {
        Says::Claims(_, of, _) => Some(of),
        _ => None,
    }
}

impl<'a> Namer<'a> {
    // The header of an impl.
    fn header(&mut self, header: &Node) -> Named<Clause> {
        let variables = self.variables(self.part(header, 0))?;
        let says = self.claims(IMPLEMENTED, self.part(header, 2), self.part(header, 1))?;
        Ok(Clause { variables, says })
    }

    // Whether the headers of two impls overlap.
    pub fn note_overlap(&mut self, lhs: usize, rhs: usize) -> Named<()> {
        let (lhs, rhs) = (self.node(lhs), self.node(rhs));
        let of = self.node(self.part(&rhs, 1));
        let (lhs, rhs) = (self.header(&lhs)?, self.header(&rhs)?);
        if trait_of_header(&lhs) != trait_of_header(&rhs) {
            return Err(error_at(&of, Wrong::OtherTrait));
        }
        let left = self.program.clauses.len();
        self.program.clauses.push(lhs)?;
        let right = self.program.clauses.len();
        self.program.clauses.push(rhs)?;
        self.note(QuestionKind::Overlap { left, right })
    }

    // The number of the impl behind those so far.
    fn next_impl(&self) -> usize {
        match self.program.impls.last() {
            Some(rule) => rule.number.saturating_add(1),
            None => 1,
        }
    }

    // A rule of an impl, that later goals may follow from: what it gives, and what it asks for.
    fn add_rule(&mut self, node: &Node, of: Impl, gives: Clause, asks: &[usize]) -> Named<()> {
        let first = self.program.clauses.len();
        self.program.clauses.push(gives)?;
        let asked = self.clauses(asks)?;
        self.each_provable(node, asked)?;
        let clauses = Parts::new(first, asked.behind);
        self.program.impls.push(Impl {
            number: of.number,
            open: of.open,
            variables: of.variables,
            clauses,
        })?;
        Ok(())
    }

    // What an impl says that a type or a constant of its trait is.
    fn assigned(&mut self, given: &Node, number: usize) -> Named<Clause> {
        let node = self.node(number);
        let of = self.trait_alone(self.part(given, 1))?;
        let item = self.associated_of(&node, of.item, self.part(&node, 0), 0)?;
        let sort = self.item_sort(item);
        let args = self.implemented(self.part(given, 2), &of.args, item)?;
        let term = self.term(self.part(&node, 1), Some(sort_of(sort)))?;
        let variables = self.variables(self.part(given, 0))?;
        let says = Says::ComesTo(sort, item, args.parts, term.number);
        Ok(Clause { variables, says })
    }

    // An impl that later goals may follow from: what it is generic over, what it gives, and what it asks for. What it says
    // that a type or a constant of its trait is, is a rule of its own, which asks for the same. An open one there may be.
    pub fn declare_impl(
        &mut self,
        node: &Node,
        open: bool,
        generics: usize,
        given: usize,
        asks: &[usize],
    ) -> Named<()> {
        let of = Impl {
            number: self.next_impl(),
            open,
            variables: self.variables(generics)?,
            clauses: Parts::new(0, 0),
        };
        let given = self.node(given);
        let header = self.header(&given)?;
        self.add_rule(node, of, header, asks)?;
        let gives = self.node(self.part(&given, 3));
        for assigned in self.parts(&gives) {
            let clause = self.assigned(&given, *assigned)?;
            self.add_rule(node, of, clause, asks)?;
        }
        Ok(())
    }

    // The place of the first rule of the impl that has the leaf's number.
    fn rule_said(&self, number: usize) -> Named<usize> {
        let wanted = self.count(number)?;
        for (place, rule) in self.program.impls.iter().enumerate() {
            if rule.number == wanted {
                return Ok(place);
            }
        }
        Err(error_at(&self.node(number), Wrong::NoImpl))
    }

    // The trait of the impl that has a rule, if that is its first one.
    fn trait_said(&self, place: usize) -> Option<usize> {
        let rule = self.program.impls.get(place)?;
        trait_of_header(self.program.clauses.get(rule.clauses.first)?)
    }

    // Whether two impls overlap, with what each asks for: by their numbers, and within a depth if one is given.
    pub fn note_impls_overlap(&mut self, lhs: usize, rhs: usize, depth: &[usize]) -> Named<()> {
        let left = self.rule_said(lhs)?;
        let right = self.rule_said(rhs)?;
        if self.trait_said(left) != self.trait_said(right) {
            return Err(error_at(&self.node(rhs), Wrong::OtherTrait));
        }
        let depth = self.depth(depth)?;
        let impls = self.program.impls.len();
        self.note(QuestionKind::ImplsOverlap {
            left,
            right,
            impls,
            depth,
        })
    }

    // The depth that is given, or else the one where nothing is said of it.
    fn depth(&self, given: &[usize]) -> Named<usize> {
        let [number] = given else {
            return Ok(DEPTH);
        };
        let depth = self.count(*number)?;
        if depth > MOST_DEPTH {
            return Err(error_at(&self.node(*number), Wrong::TooLarge));
        }
        Ok(depth)
    }

    // Whether a predicate follows from the impls so far and from what is assumed, within a depth if one is given.
    pub fn note_prove(&mut self, node: &Node, goal: usize, depth: &[usize]) -> Named<()> {
        let depth = self.depth(depth)?;
        let clauses = self.clauses(&[goal])?;
        self.each_provable(node, clauses)?;
        let impls = self.program.impls.len();
        self.note(QuestionKind::Prove {
            goal: clauses.first,
            impls,
            depth,
        })
    }

    // Which methods of a table may be for a type.
    pub fn note_methods(&mut self, entries: &[usize], ty: usize) -> Named<()> {
        let first = self.program.methods.len();
        for number in entries {
            let node = self.node(*number);
            let variables = self.variables(self.part(&node, 0))?;
            let ty = self.ty(self.part(&node, 1))?;
            let name = self.name_of(self.part(&node, 2))?;
            self.program.methods.push(Method {
                variables,
                ty,
                name,
            })?;
        }
        let methods = Parts::new(first, self.program.methods.len());
        let of = self.ty(ty)?;
        self.note(QuestionKind::Methods { methods, of })
    }
}
