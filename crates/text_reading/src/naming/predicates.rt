//! Predicates, what traits state, and what is assumed.

use crate::naming::error::{Named, Wrong, check_count, error_at};
use crate::naming::namer::{Made, Namer};
use crate::naming::program::{Clause, ParamSort, Parts, Says, Sort, Stated, Term};
use crate::naming::terms::{given_to, parameter};
use crate::reading::{Claim, Form, ItemSort, Node, NodeKind, StatedKind};
use term_enums::PredicatePolarity;

// The name of the type that implements a trait, in what the trait states.
const SELF: &str = "Self";

// Whether an item of that sort is a trait's type or constant.
fn is_declared(sort: ItemSort) -> bool {
    sort == ItemSort::AssocTy || sort == ItemSort::AssocConst
}

// Whether a predicate claims that a trait is implemented.
fn implements(clause: &Clause) -> bool {
    matches!(
        clause.says,
        Says::Claims(Claim::Trait(PredicatePolarity::Positive), _, _)
    )
}

impl<'a> Namer<'a> {
    // The place and the sort of a parameter of the trait whose statement this is, if the name is one's.
    fn own_place(&self, name: &'a str) -> Option<(usize, ParamSort)> {
        let item = self.program.items.get(self.stating?)?;
        if name == SELF {
            return Some((0, ParamSort::Type));
        }
        for (place, declared) in item.declared.iter().enumerate() {
            if declared.text == name {
                return Some((place.saturating_add(1), declared.sort));
            }
        }
        None
    }

    // A parameter of the trait whose statement this is, if the node's name is one's.
    pub fn own_parameter(&mut self, node: &Node) -> Named<Option<Made>> {
        let text = self.text_of(node);
        let Some((place, sort)) = self.own_place(text) else {
            return Ok(None);
        };
        let index = u32::try_from(place).map_err(|_| error_at(node, Wrong::TooLarge))?;
        let (name, sort) = (self.name(text)?, given_to(sort));
        let made = self.add(node, parameter(sort, index, name), sort, 0)?;
        Ok(Some(made))
    }

    // What a trait states, the one of the `Stating` before these predicates.
    pub fn state(&mut self, node: &Node, kind: StatedKind, numbers: &[usize]) -> Named<()> {
        let of = self.stating.ok_or(error_at(node, Wrong::NotRead))?;
        let clauses = self.clauses(numbers)?;
        if kind == StatedKind::Const {
            self.each_implements(node, clauses)?;
        }
        self.stating = None;
        self.program.stated.push(Stated { of, kind, clauses })?;
        Ok(())
    }

    // The predicates of a range of the program's list.
    fn clauses_in(&self, clauses: Parts) -> &[Clause] {
        let found = self.program.clauses.get(clauses.first..clauses.behind);
        found.unwrap_or(&[])
    }

    // Predicates have to claim that a trait is implemented, each.
    pub fn each_implements(&self, node: &Node, clauses: Parts) -> Named<()> {
        if self.clauses_in(clauses).iter().all(implements) {
            return Ok(());
        }
        Err(error_at(node, Wrong::NoBound))
    }

    // Predicates have to be such of which it can be told whether they follow: that a trait is implemented, or what a type
    // or a constant of a trait is.
    pub fn each_provable(&self, node: &Node, clauses: Parts) -> Named<()> {
        for clause in self.clauses_in(clauses) {
            if !implements(clause) && !matches!(clause.says, Says::ComesTo(..)) {
                return Err(error_at(node, Wrong::NotProvable));
            }
        }
        Ok(())
    }

    // Predicates, as a range of the program's list.
    pub fn clauses(&mut self, numbers: &[usize]) -> Named<Parts> {
        let first = self.program.clauses.len();
        for number in numbers {
            let clause = self.clause(*number)?;
            self.program.clauses.push(clause)?;
        }
        Ok(Parts::new(first, self.program.clauses.len()))
    }

    // A predicate.
    fn clause(&mut self, number: usize) -> Named<Clause> {
        let node = self.node(number);
        let variables = self.variables(self.part(&node, 0))?;
        let rest = self.parts(&node).get(1..).unwrap_or(&[]);
        let says = match (node.kind, rest) {
            (NodeKind::Form(Form::Claims(claim)), [ty, of]) => self.claims(claim, *ty, *of)?,
            (NodeKind::Form(Form::OutlivesUnder), [term, region]) => {
                self.outlives(*term, *region)?
            }
            (NodeKind::Form(Form::ComesTo), [alias, term]) => self.comes_to(*alias, *term)?,
            (NodeKind::Form(Form::Says), [name, terms @ ..]) => self.says(&node, *name, terms)?,
            _ => return Err(error_at(&node, Wrong::NotRead)),
        };
        Ok(Clause { variables, says })
    }

    // What is claimed of a trait.
    pub fn claims(&mut self, claim: Claim, ty: usize, of: usize) -> Named<Says> {
        let of = self.trait_alone(of)?;
        let args = self.implemented(ty, &of.args, of.item)?;
        Ok(Says::Claims(claim, of.item, args.parts))
    }

    // That a region or a type outlives a region.
    fn outlives(&mut self, number: usize, region: usize) -> Named<Says> {
        let made = self.term(number, None)?;
        let region = self.term(region, Some(Sort::Region))?.number;
        match made.sort {
            Sort::Region => Ok(Says::RegionOutlives(made.number, region)),
            Sort::Type => Ok(Says::TypeOutlives(made.number, region)),
            found => {
                let expected = Sort::Type;
                let wrong = Wrong::Sort { expected, found };
                Err(error_at(&self.node(number), wrong))
            }
        }
    }

    // What a trait's type or constant comes to, over its arguments.
    fn comes_to(&mut self, alias: usize, term: usize) -> Named<Says> {
        let made = self.term(alias, None)?;
        let (sort, item, args) = match self.program.terms.get(made.number) {
            Some(Term::Item(sort, item, args)) if is_declared(*sort) => (*sort, *item, *args),
            _ => return Err(error_at(&self.node(alias), Wrong::NoProjection)),
        };
        let term = self.term(term, Some(made.sort))?;
        Ok(Says::ComesTo(sort, item, args, term.number))
    }

    // The only term behind the name of a predicate.
    fn only(&self, node: &Node, terms: &[usize]) -> Named<usize> {
        check_count(node, 1, terms.len())?;
        terms.first().copied().ok_or(error_at(node, Wrong::NotRead))
    }

    // A constant and its type, behind the name of a predicate.
    fn typed(&mut self, node: &Node, terms: &[usize]) -> Named<Says> {
        let [constant, ty] = terms else {
            let (expected, found) = (2, terms.len());
            return Err(error_at(node, Wrong::Count { expected, found }));
        };
        let constant = self.term(*constant, Some(Sort::Const))?.number;
        Ok(Says::ConstArgHasType(constant, self.ty(*ty)?))
    }

    // A predicate that is said by its name.
    fn says(&mut self, node: &Node, name: usize, terms: &[usize]) -> Named<Says> {
        let name = self.node(name);
        match self.text_of(&name) {
            "WellFormed" => {
                let term = self.only(node, terms)?;
                Ok(Says::WellFormed(self.any(term)?))
            }
            "ConstEvaluatable" => {
                let term = self.only(node, terms)?;
                let constant = self.term(term, Some(Sort::Const))?;
                Ok(Says::ConstEvaluatable(constant.number))
            }
            "ConstArgHasType" => self.typed(node, terms),
            "UnstableFeature" => {
                let feature = self.only(node, terms)?;
                Ok(Says::UnstableFeature(self.name_of(feature)?))
            }
            _ => Err(error_at(&name, Wrong::NoPredicate)),
        }
    }
}
