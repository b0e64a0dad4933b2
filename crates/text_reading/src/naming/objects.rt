//! Trait objects, and what they implement.

use crate::naming::aliases::sort_of;
use crate::naming::error::{Named, Wrong, error_at};
use crate::naming::namer::{Made, Namer};
use crate::naming::program::{Parts, Sort, Term};
use crate::naming::terms::Wanted;
use crate::reading::{Form, ItemSort, Node, NodeKind};

impl<'a> Namer<'a> {
    // What a type or a constant of a trait is.
    fn projects(
        &mut self,
        node: &Node,
        variables: Parts,
        item: usize,
        args: &[usize],
        term: usize,
    ) -> Named<Made> {
        let wanted = sort_of(self.item_sort(item));
        let args = self.list(args, Wanted::Declared(item))?;
        let term = self.term(term, Some(wanted))?;
        let projects = Term::Projects(variables, item, args.parts, term.number);
        self.add(
            node,
            projects,
            Sort::Predicate,
            args.levels.max(term.levels),
        )
    }

    // Adds that a trait is implemented, and what its types and constants are that are assigned.
    fn implements(
        &mut self,
        node: &Node,
        variables: Parts,
        of: usize,
        predicates: &mut Vec<Made>,
    ) -> Named<()> {
        let given = self.given(of)?;
        let of = self.trait_over(&given)?;
        let args = self.list(&given.args, Wanted::Declared(of))?;
        let term = if self.item_sort(of) == ItemSort::AutoTrait {
            Term::IsAuto(variables, of)
        } else {
            Term::Implements(variables, of, args.parts)
        };
        predicates.push(self.add(node, term, Sort::Predicate, args.levels)?)?;
        for number in &given.assigned {
            let node = self.node(*number);
            let item = self.associated_of(&node, of, self.part(&node, 0), 0)?;
            let term = self.part(&node, 1);
            predicates.push(self.projects(&node, variables, item, &given.args, term)?)?;
        }
        Ok(())
    }

    // Adds what a bound says.
    fn bound_says(&mut self, number: usize, predicates: &mut Vec<Made>) -> Named<()> {
        let node = self.node(number);
        let variables = self.variables(self.part(&node, 0))?;
        match (node.kind, self.parts(&node)) {
            (NodeKind::Form(Form::Implements), [_, of]) => {
                self.implements(&node, variables, *of, predicates)
            }
            (NodeKind::Form(Form::Projects), [_, of, own, term]) => {
                let own = self.own_of(*of, *own)?;
                let made = self.projects(&node, variables, own.item, &own.args, *term)?;
                Ok(predicates.push(made)?)
            }
            _ => Err(error_at(&node, Wrong::NotRead)),
        }
    }

    // A trait object.
    pub fn object(&mut self, node: &Node, bounds: &[usize], region: usize) -> Named<Made> {
        let mut predicates = Vec::new(self.alloc);
        for bound in bounds {
            self.bound_says(*bound, &mut predicates)?;
        }
        let region = self.term(region, Some(Sort::Region))?;
        let mut below = region.levels;
        let first = self.program.parts.len();
        for predicate in &predicates {
            self.program.parts.push(predicate.number)?;
            below = below.max(predicate.levels);
        }
        let term = Term::Object(self.parts_from(first), region.number);
        self.add(node, term, Sort::Type, below)
    }
}
